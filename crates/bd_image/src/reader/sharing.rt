//! The rule that no two extents have a block in common.
ghost use Rattle.std.specs.Prelude.{◌≡◌, ◌≢◌, ℕ, ◌+◌, ◌<◌, ◌≤◌, ◌↔◌, ◌⊎◌, List, length, IfOk, IsTrue, MatchOption, OnOk};
ghost use Rattle.bd_base.specs.declared.limits.TheConstants.{EXTENTS};
ghost use Rattle.bd_image.specs.Checks.{IsInside};
ghost use Rattle.bd_image.specs.Layout.{IsUsed, extent_count, inode_count, used_mark};
ghost use Rattle.bd_image.specs.Rules.{ExtentCount, ExtentRange, ExtentShares, HasRecords, TellsBreak, Obeys};
ghost use Rattle.bd_image.specs.Sharing.{IsFirstShare, IsInExtent, IsTakenIn, MarksBefore, SharesNoneAndMarks};

use crate::reader::fields::{
    block_count, extent_at, extent_count, extent_place, inode_count, is_used,
};
use bd_base::{Extent, OutOfMemory};
use std::alloc::Global;

/// Whether a block of the extent is marked.
fn is_any_taken(taken: &[bool], extent: Extent) -> bool
    requires { extent.start + extent.length ≤ length taken.now }
    ensures { IsTrue result ↔ ((x : ℕ) × IsInExtent extent x × IsTakenIn taken.now x) }
{
    let start = extent.start as usize;
    for x in start..start + extent.length as usize {
        if taken[x] {
            return true;
        }
    }
    false
}

/// Marks the blocks of the extent.
pub(crate) fn take_blocks(taken: &mut [bool], extent: Extent)
    requires { extent.start + extent.length ≤ length taken.old }
    ensures { (x : ℕ) → x < length taken.old →
        IsTakenIn taken.new x ↔ (IsTakenIn taken.old x ⊎ IsInExtent extent x) }
{
    let start = extent.start as usize;
    for x in start..start + extent.length as usize {
        taken[x] = true;
    }
}

/// The first extent of record `j` that has a marked block. Where there is none, all its blocks are marked.
fn first_shared(bytes: &[u8], j: u64, taken: &mut [bool]) -> Option<u64>
    requires image { HasRecords bytes.now }
    requires record { IsUsed bytes.now j }
    requires few { extent_count bytes.now j ≤ EXTENTS }
    requires inside { (e : ℕ) → e < extent_count bytes.now j → IsInside bytes.now j e }
    requires marks { MarksBefore bytes.now taken.old j 0 }
    ensures { MatchOption result (SharesNoneAndMarks bytes.now taken.new j)
        (IsFirstShare bytes.now j) }
{
    for e in 0..extent_count(bytes, j) {
        let extent = extent_at(bytes, j, e);
        if is_any_taken(taken, extent) {
            return Some(e);
        }
        take_blocks(taken, extent);
    }
    None
}

/// No extent has a block of an earlier one.
pub(crate) fn check_extent_shares(alloc: Global, bytes: &[u8]) -> Result<Option<u64>, OutOfMemory>
    requires image { HasRecords bytes.now }
    requires counts { Obeys bytes.now ExtentCount }
    requires ranges { Obeys bytes.now ExtentRange }
    ensures { IfOk result (TellsBreak bytes.now ExtentShares) }
{
    let mut taken = vec![in alloc; false; block_count(bytes) as usize]?;
    for j in 0..inode_count(bytes) {
        if is_used(bytes, j) {
            if let Some(e) = first_shared(bytes, j, &mut taken) {
                return Ok(Some(extent_place(j, e)));
            }
        }
    }
    Ok(None)
}
