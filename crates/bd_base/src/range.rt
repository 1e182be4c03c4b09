//! A range of bytes within a block.
ghost use Rattle.std.specs.Prelude.{◌≡◌, ℕ, ◌-◌, ◌<◌, ◌≤◌, ◌↔◌, IsSome, IfSome};

use crate::limits::BLOCK_SIZE;
use std::marker::Model;

/// The bytes `lo` to `hi` - 1 of a block: at least one, and all within the block.
#[derive(Clone, Copy, Debug, PartialEq, Eq)]
pub struct Range {
    pub lo: u16,
    pub hi: u16,
}

impl Model for Range {
    ghost use Rattle.std.specs.Prelude.{◌<◌, ◌≤◌};
    ghost use Rattle.bd_base.specs.declared.limits.TheConstants.{BLOCK_SIZE};
    ghost use Rattle.bd_base.specs.Bounds.{Bounds};

    ghost Value = { Bounds };

    ghost view = { λ a. record { lo = a.lo; hi = a.hi } };

    ghost invariant = { λ a. (a.lo < a.hi) × (a.hi ≤ BLOCK_SIZE) };

    ghost inverse = { λ b. record { lo = b.lo; hi = b.hi } };
}

impl Range {
    /// The range from `lo` to `hi`: None exactly where it is empty or ends past the block.
    pub fn new(lo: u64, hi: u64) -> Option<Range>
        ensures range { IsSome result ↔ ((lo < hi) × (hi ≤ BLOCK_SIZE)) }
        ensures value { IfSome result (λ r. (r.lo ≡ lo) × (r.hi ≡ hi)) }
    {
        if lo < hi && hi <= BLOCK_SIZE {
            Some(Range {
                lo: lo as u16,
                hi: hi as u16,
            })
        } else {
            None
        }
    }

    /// How many bytes it has.
    pub fn count(self) -> usize
        ensures count { result ≡ self.hi - self.lo }
        ensures ordered { self.lo < self.hi }
        ensures in_block { self.hi ≤ BLOCK_SIZE }
    {
        usize::from(self.hi - self.lo)
    }
}

#[cfg(test)]
mod tests {
    use super::*;

    #[test]
    fn has_bytes_of_one_block(rt: HostRuntime) {
        for (lo, hi, want) in [
            (0, 4096, true),
            (4095, 4096, true),
            (0, 0, false),
            (5, 4, false),
            (0, 4097, false),
        ] {
            assert_eq!(rt; Range::new(lo, hi).is_some(), want, "at {lo} {hi}");
        }
    }
}
