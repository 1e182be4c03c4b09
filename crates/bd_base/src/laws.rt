//! Laws, each the contract of a function that does nothing.
ghost use Rattle.std.specs.Prelude.{ℕ, List, Option};
ghost use Rattle.bd_base.specs.declared.volume.Inode.{Inode};
ghost use Rattle.bd_base.specs.Growth.{RefusesGrowth};
ghost use Rattle.bd_base.specs.Limits.{LimitsAre};

/// Each limit is the number that the documents say.
pub fn limits_are()
    ensures { LimitsAre }
{}

/// A growth is refused for the first of three reasons: the file would be too big; a block is needed and none is free;
/// the block that would be taken makes an extent too many.
pub fn growth_is_refused_in_order()
    ensures { (total : ℕ) → (files : List (Option Inode)) → (file : Inode) → (to : ℕ) →
        RefusesGrowth total files file to }
{}
