//! The rules of each file's extents, and of its size in blocks.
ghost use Rattle.std.specs.Prelude.{◌≡◌, ◌≢◌, ℕ, ◌+◌, ◌*◌, ◌<◌, ◌≤◌, length, MatchOption, IsTrue, ◌↔◌};
ghost use Rattle.bd_base.specs.declared.limits.TheConstants.{EXTENTS};
ghost use Rattle.bd_base.specs.Files.{data_start};
ghost use Rattle.bd_image.specs.Checks.{HasNoJoin, IsFirstFault, IsFirstJoin, IsInside};
ghost use Rattle.bd_image.specs.Layout.{block_count, blocks_in_image, extent_at, extent_count, inode_count, used_mark};
ghost use Rattle.bd_image.specs.Rules.{BlockCount, ExtentCount, ExtentJoins, ExtentRange, HasRecords, IsInDataArea, TellsBreak, Obeys, Size};

use crate::layout::SIZE_FIELD;
use crate::reader::fields::{
    block_count, extent_at, extent_count, extent_place, inode_count, is_used, record_place,
    size_in_image,
};
use bd_base::{BLOCK_SIZE, Extent, FILE_SIZE};

/// The first data block.
pub(crate) fn data_start(bytes: &[u8]) -> u64
    requires { HasRecords bytes.now }
    ensures { result ≡ data_start (inode_count bytes.now) }
{
    bd_base::data_start(inode_count(bytes))
}

/// Whether the extent lies in the data area.
fn is_in_data_area(bytes: &[u8], extent: Extent) -> bool
    requires { HasRecords bytes.now }
    ensures { IsTrue result ↔ IsInDataArea (block_count bytes.now) (inode_count bytes.now) extent }
{
    let start = u64::from(extent.start);
    let length = u64::from(extent.length);
    1 <= length && data_start(bytes) <= start && start + length <= u64::from(block_count(bytes))
}

/// The first extent of record `j` that lies outside of the data area.
fn first_outside(bytes: &[u8], j: u64) -> Option<u64>
    requires image { HasRecords bytes.now }
    requires record { j < inode_count bytes.now }
    requires few { extent_count bytes.now j ≤ EXTENTS }
    ensures { MatchOption result ((e : ℕ) → e < extent_count bytes.now j → IsInside bytes.now j e)
        (IsFirstFault (IsInside bytes.now j) (extent_count bytes.now j)) }
{
    for e in 0..extent_count(bytes, j) {
        if !is_in_data_area(bytes, extent_at(bytes, j, e)) {
            return Some(e);
        }
    }
    None
}

/// Each extent lies in the data area.
pub(crate) fn check_extent_ranges(bytes: &[u8]) -> Option<u64>
    requires image { HasRecords bytes.now }
    requires counts { Obeys bytes.now ExtentCount }
    ensures { TellsBreak bytes.now ExtentRange result }
{
    for j in 0..inode_count(bytes) {
        if is_used(bytes, j) {
            if let Some(e) = first_outside(bytes, j) {
                return Some(extent_place(j, e));
            }
        }
    }
    None
}

/// The first extent of record `j` that begins where the one before it ends.
fn first_joined(bytes: &[u8], j: u64) -> Option<u64>
    requires image { HasRecords bytes.now }
    requires record { j < inode_count bytes.now }
    requires few { extent_count bytes.now j ≤ EXTENTS }
    ensures { MatchOption result (HasNoJoin bytes.now j (extent_count bytes.now j))
        (IsFirstJoin bytes.now j) }
{
    for e in 1..extent_count(bytes, j) {
        let before = extent_at(bytes, j, e - 1);
        let end = u64::from(before.start) + u64::from(before.length);
        if u64::from(extent_at(bytes, j, e).start) == end {
            return Some(e);
        }
    }
    None
}

/// No extent begins where the one before it in the same file ends.
pub(crate) fn check_extent_joins(bytes: &[u8]) -> Option<u64>
    requires image { HasRecords bytes.now }
    requires counts { Obeys bytes.now ExtentCount }
    ensures { TellsBreak bytes.now ExtentJoins result }
{
    for j in 0..inode_count(bytes) {
        if is_used(bytes, j) {
            if let Some(e) = first_joined(bytes, j) {
                return Some(extent_place(j, e));
            }
        }
    }
    None
}

/// How many blocks record `j` has.
pub(crate) fn block_total(bytes: &[u8], j: u64) -> u64
    requires image { HasRecords bytes.now }
    requires record { j < inode_count bytes.now }
    requires few { extent_count bytes.now j ≤ EXTENTS }
    ensures { result ≡ length (blocks_in_image bytes.now j) }
{
    let mut total = 0;
    for e in 0..extent_count(bytes, j) {
        total += u64::from(extent_at(bytes, j, e).length);
    }
    total
}

/// Each file's size is one that a file may have, and its blocks are as many as it needs.
pub(crate) fn check_sizes(bytes: &[u8]) -> Option<u64>
    requires image { HasRecords bytes.now }
    requires counts { Obeys bytes.now ExtentCount }
    ensures { TellsBreak bytes.now Size result }
{
    for j in 0..inode_count(bytes) {
        if is_used(bytes, j) {
            let size = size_in_image(bytes, j);
            if size > FILE_SIZE || block_total(bytes, j) != size.div_ceil(BLOCK_SIZE) {
                return Some(record_place(j) + SIZE_FIELD);
            }
        }
    }
    None
}
