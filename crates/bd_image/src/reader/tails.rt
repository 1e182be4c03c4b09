//! The rule that the bytes of a file's last block past its size are zero.
ghost use Rattle.std.specs.Prelude.{◌≡◌, ℕ, ◌<◌, ◌≤◌, min, length, MatchOption};
ghost use Rattle.bd_image.specs.Layout.{IsUsed, inode_count};
ghost use Rattle.bd_image.specs.Rules.{BlockCount, ExtentCount, ExtentRange, HasRecords, TellsBreak, Obeys, Size, TailZero};
ghost use Rattle.bd_image.specs.Tails.{IsFirstInTail, IsTailZero};

use crate::reader::fields::{extent_at, extent_count, inode_count, is_used, size_in_image};
use crate::reader::zeros::first_nonzero;
use bd_base::BLOCK_SIZE;

/// The first byte past the size of record `j` in its last block that is not zero.
fn first_in_tail(bytes: &[u8], j: u64) -> Option<u64>
    requires image { HasRecords bytes.now }
    requires total { Obeys bytes.now BlockCount }
    requires record { IsUsed bytes.now j }
    requires counts { Obeys bytes.now ExtentCount }
    requires ranges { Obeys bytes.now ExtentRange }
    requires sizes { Obeys bytes.now Size }
    ensures { MatchOption result (IsTailZero bytes.now j) (IsFirstInTail bytes.now j) }
{
    let count = extent_count(bytes, j);
    if count == 0 {
        return None;
    }
    let last = extent_at(bytes, j, count - 1);
    let end = BLOCK_SIZE * (u64::from(last.start) + u64::from(last.length));
    let size = size_in_image(bytes, j);
    let past = BLOCK_SIZE * size.div_ceil(BLOCK_SIZE) - size;
    first_nonzero(bytes, end - past, end)
}

/// The lesser of the two places, where there are two.
fn earlier(least: Option<u64>, place: u64) -> u64
    ensures { MatchOption least (result ≡ place) (λ other. result ≡ min other place) }
{
    match least {
        Some(other) => other.min(place),
        None => place,
    }
}

/// The bytes of each file's last block past its size are zero. Blocks stand in any order, so the
/// least place is one of all files' places.
pub(crate) fn check_tails(bytes: &[u8]) -> Option<u64>
    requires image { HasRecords bytes.now }
    requires total { Obeys bytes.now BlockCount }
    requires counts { Obeys bytes.now ExtentCount }
    requires ranges { Obeys bytes.now ExtentRange }
    requires sizes { Obeys bytes.now Size }
    ensures { TellsBreak bytes.now TailZero result }
{
    let mut least = None;
    for j in 0..inode_count(bytes) {
        if is_used(bytes, j) {
            if let Some(place) = first_in_tail(bytes, j) {
                least = Some(earlier(least, place));
            }
        }
    }
    least
}
