//! The rules of the single fields of a record.
ghost use Rattle.std.specs.Prelude.{◌≡◌, ℕ, ◌+◌, ◌*◌, ◌<◌, ◌≤◌, length, MatchOption};
ghost use Rattle.bd_image.specs.Layout.{byte_at, extent_count, inode_count, used_mark};
ghost use Rattle.bd_image.specs.Rules.{ExtentCount, FreeRecord, HasRecords, TellsBreak, Obeys, Perms, RecordRest, UsedMark};

use crate::layout::{EXTENT_BYTES, EXTENTS_FIELD, RECORD_BYTES};
use crate::reader::fields::{
    extent_count, inode_count, is_used, perms_at, record_place, used_mark,
};
use crate::reader::zeros::first_nonzero;
use bd_base::{EXTENTS, PERMS};

/// Each record is marked as used or as free.
pub(crate) fn check_used_marks(bytes: &[u8]) -> Option<u64>
    requires image { HasRecords bytes.now }
    ensures { TellsBreak bytes.now UsedMark result }
{
    for j in 0..inode_count(bytes) {
        if used_mark(bytes, j) > 1 {
            return Some(record_place(j));
        }
    }
    None
}

/// Each free record is all zeros.
pub(crate) fn check_free_records(bytes: &[u8]) -> Option<u64>
    requires image { HasRecords bytes.now }
    ensures { TellsBreak bytes.now FreeRecord result }
{
    for j in 0..inode_count(bytes) {
        if used_mark(bytes, j) == 0 {
            let start = record_place(j);
            if let Some(place) = first_nonzero(bytes, start, start + RECORD_BYTES) {
                return Some(place);
            }
        }
    }
    None
}

/// No file has permissions that are not there.
pub(crate) fn check_perms(bytes: &[u8]) -> Option<u64>
    requires image { HasRecords bytes.now }
    ensures { TellsBreak bytes.now Perms result }
{
    for j in 0..inode_count(bytes) {
        if is_used(bytes, j) && u64::from(perms_at(bytes, j)) >= PERMS {
            return Some(record_place(j) + 1);
        }
    }
    None
}

/// No file has too many extents.
pub(crate) fn check_extent_counts(bytes: &[u8]) -> Option<u64>
    requires image { HasRecords bytes.now }
    ensures { TellsBreak bytes.now ExtentCount result }
{
    for j in 0..inode_count(bytes) {
        if is_used(bytes, j) && extent_count(bytes, j) > EXTENTS {
            return Some(record_place(j) + 2);
        }
    }
    None
}

/// The bytes of a file's record past its extents are zero.
pub(crate) fn check_record_rests(bytes: &[u8]) -> Option<u64>
    requires image { HasRecords bytes.now }
    requires counts { Obeys bytes.now ExtentCount }
    ensures { TellsBreak bytes.now RecordRest result }
{
    for j in 0..inode_count(bytes) {
        if is_used(bytes, j) {
            let start = record_place(j);
            let rest = start + EXTENTS_FIELD + EXTENT_BYTES * extent_count(bytes, j);
            if let Some(place) = first_nonzero(bytes, rest, start + RECORD_BYTES) {
                return Some(place);
            }
        }
    }
    None
}
