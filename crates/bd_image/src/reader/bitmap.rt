//! The rule that the bitmap marks the blocks of the metadata and of files, and no others.
ghost use Rattle.std.specs.Prelude.{◌≡◌, ℕ, ◌+◌, ◌*◌, ◌<◌, ◌≤◌, ◌↔◌, ◌⊎◌, length, IfOk, IsTrue, MatchOption, OnOk};
ghost use Rattle.bd_base.specs.declared.limits.TheConstants.{BLOCK_SIZE, EXTENTS};
ghost use Rattle.std.specs.List.{Contains};
ghost use Rattle.bd_image.specs.Layout.{blocks_in_image, extent_count, inode_count, is_marked};
ghost use Rattle.bd_image.specs.Rules.{Bitmap, BlockCount, ExtentCount, ExtentRange, HasRecords, TellsBreak, Obeys};
ghost use Rattle.bd_image.specs.Checks.{IsInside};
ghost use Rattle.bd_image.specs.Sharing.{IsTakenIn, MarksTaken};

use crate::layout::BITMAP_PLACE;
use crate::reader::extents::data_start;
use crate::reader::fields::{byte_at, extent_at, extent_count, inode_count, is_used};
use crate::reader::sharing::take_blocks;
use bd_base::{BLOCK_SIZE, Extent, OutOfMemory};
use std::alloc::Global;

/// How many bits the bitmap has.
const BITS: u64 = 8 * BLOCK_SIZE;

/// Marks the blocks of record `j`.
fn take_file(bytes: &[u8], j: u64, taken: &mut [bool])
    requires image { HasRecords bytes.now }
    requires record { j < inode_count bytes.now }
    requires few { extent_count bytes.now j ≤ EXTENTS }
    requires inside { (e : ℕ) → e < extent_count bytes.now j → IsInside bytes.now j e }
    requires total { Obeys bytes.now BlockCount }
    requires long { length taken.old ≡ 8 * BLOCK_SIZE }
    ensures { (x : ℕ) → x < 8 * BLOCK_SIZE →
        IsTakenIn taken.new x ↔ (IsTakenIn taken.old x ⊎ Contains (blocks_in_image bytes.now j) x) }
{
    for e in 0..extent_count(bytes, j) {
        take_blocks(taken, extent_at(bytes, j, e));
    }
}

/// Marks the blocks of the metadata and of files.
fn mark_taken(bytes: &[u8], taken: &mut [bool])
    requires image { HasRecords bytes.now }
    requires total { Obeys bytes.now BlockCount }
    requires counts { Obeys bytes.now ExtentCount }
    requires ranges { Obeys bytes.now ExtentRange }
    requires long { length taken.old ≡ 8 * BLOCK_SIZE }
    requires clear { (x : ℕ) → ¬ IsTakenIn taken.old x }
    ensures { MarksTaken bytes.now taken.new }
{
    let metadata = Extent {
        start: 0,
        length: data_start(bytes) as u32,
    };
    take_blocks(taken, metadata);
    for j in 0..inode_count(bytes) {
        if is_used(bytes, j) {
            take_file(bytes, j, taken);
        }
    }
}

/// Whether the bitmap marks block `x`.
fn is_marked(bytes: &[u8], x: u64) -> bool
    requires block { x < 8 * BLOCK_SIZE }
    requires long { 8192 ≤ length bytes.now }
    ensures { result ≡ is_marked bytes.now x }
{
    (byte_at(bytes, BITMAP_PLACE + x / 8) >> (x % 8)) % 2 == 1
}

/// The place of the first bit that is not that of the map.
fn first_wrong(bytes: &[u8], taken: &[bool]) -> Option<u64>
    requires long { 8192 ≤ length bytes.now }
    requires taken { MarksTaken bytes.now taken.now }
    ensures { TellsBreak bytes.now Bitmap result }
{
    for x in 0..BITS {
        if is_marked(bytes, x) != taken[x as usize] {
            return Some(BITMAP_PLACE + x / 8);
        }
    }
    None
}

/// A map of this many blocks with no mark.
fn empty_map(alloc: Global, blocks: usize) -> Result<Vec<bool>, OutOfMemory>
    ensures long { IfOk result (λ map. length map.items ≡ blocks) }
    ensures clear { IfOk result (λ map. (x : ℕ) → ¬ IsTakenIn map.items x) }
{
    let map = vec![in alloc; false; blocks]?;
    Ok(map)
}

/// The bitmap marks exactly the blocks that are taken.
pub(crate) fn check_bitmap(alloc: Global, bytes: &[u8]) -> Result<Option<u64>, OutOfMemory>
    requires image { HasRecords bytes.now }
    requires total { Obeys bytes.now BlockCount }
    requires counts { Obeys bytes.now ExtentCount }
    requires ranges { Obeys bytes.now ExtentRange }
    ensures { IfOk result (TellsBreak bytes.now Bitmap) }
{
    let mut taken = empty_map(alloc, BITS as usize)?;
    mark_taken(bytes, &mut taken);
    Ok(first_wrong(bytes, &taken))
}
