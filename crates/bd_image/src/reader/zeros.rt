//! A search for bytes that are not zero.
ghost use Rattle.std.specs.Prelude.{ℕ, ◌<◌, ◌≤◌, length, MatchOption};
ghost use Rattle.bd_image.specs.Checks.{AreZero, IsFirstNonzero};

use crate::reader::fields::byte_at;

/// The first byte from `low` up to `high` that is not zero.
pub(crate) fn first_nonzero(bytes: &[u8], low: u64, high: u64) -> Option<u64>
    requires { high ≤ length bytes.now }
    ensures { MatchOption result (AreZero bytes.now low high) (IsFirstNonzero bytes.now low high) }
{
    for place in low..high {
        if byte_at(bytes, place) != 0 {
            return Some(place);
        }
    }
    None
}
