//! The files that the records say.
ghost use Rattle.std.specs.Prelude.{◌≡◌, ℕ, ◌+◌, ◌<◌, ◌≤◌, map, nat_eq, not, IfOk};
ghost use Rattle.bd_base.specs.declared.limits.TheConstants.{EXTENTS};
ghost use Rattle.std.specs.List.{range_with_len, take_while};
ghost use Rattle.bd_image.specs.Checks.{IsInside};
ghost use Rattle.bd_image.specs.Layout.{blocks_in_image, extent_count, extents_at, inode_count, name_at, used_mark};
ghost use Rattle.bd_image.specs.Rules.{BlockCount, ExtentCount, ExtentRange, HasRecords, Obeys};
ghost use Rattle.bd_image.specs.Volumes.{inode_in_image};

use crate::reader::fields::{
    extent_at, extent_count, inode_count, is_used, name_field, owner_at, perms_at, size_in_image,
};
use bd_base::{BlockList, ExtentList, Inode, InodeList, List, Name, OutOfMemory};
use bd_extents::blocks_of;
use std::alloc::Global;

/// The bytes before the first zero.
fn copy_name(alloc: Global, field: &[u8]) -> Result<Name, OutOfMemory>
    ensures { IfOk result (λ name. name ≡ take_while (λ byte. not (nat_eq byte 0)) field.now) }
{
    let name = field
        .iter()
        .copied()
        .take_while(|byte| *byte != 0)
        .collect(alloc)?;
    Ok(List::from_vec(name))
}

/// The name of record `j`.
fn read_name(alloc: Global, bytes: &[u8], j: u64) -> Result<Name, OutOfMemory>
    requires image { HasRecords bytes.now }
    requires record { j < inode_count bytes.now }
    ensures { IfOk result (λ name. name ≡ name_at bytes.now j) }
{
    copy_name(alloc, name_field(bytes, j))
}

/// The extents of record `j`.
fn read_extents(alloc: Global, bytes: &[u8], j: u64) -> Result<ExtentList, OutOfMemory>
    requires image { HasRecords bytes.now }
    requires record { j < inode_count bytes.now }
    requires few { extent_count bytes.now j ≤ EXTENTS }
    ensures { IfOk result (λ extents. extents ≡ extents_at bytes.now j) }
{
    let mut extents = List::new(alloc);
    for e in 0..extent_count(bytes, j) {
        extents.push(extent_at(bytes, j, e))?;
    }
    Ok(extents)
}

/// The blocks of record `j`.
fn read_blocks(alloc: Global, bytes: &[u8], j: u64) -> Result<BlockList, OutOfMemory>
    requires image { HasRecords bytes.now }
    requires total { Obeys bytes.now BlockCount }
    requires record { j < inode_count bytes.now }
    requires few { extent_count bytes.now j ≤ EXTENTS }
    requires inside { (e : ℕ) → e < extent_count bytes.now j → IsInside bytes.now j e }
    ensures { IfOk result (λ blocks. blocks ≡ blocks_in_image bytes.now j) }
{
    let extents = read_extents(alloc, bytes, j)?;
    blocks_of(alloc, extents.as_slice())
}

/// The file of record `j`, if it is used.
fn read_file(alloc: Global, bytes: &[u8], j: u64) -> Result<Option<Inode>, OutOfMemory>
    requires image { HasRecords bytes.now }
    requires total { Obeys bytes.now BlockCount }
    requires record { j < inode_count bytes.now }
    requires counts { Obeys bytes.now ExtentCount }
    requires ranges { Obeys bytes.now ExtentRange }
    ensures { IfOk result (λ file. file ≡ inode_in_image bytes.now j) }
{
    if !is_used(bytes, j) {
        return Ok(None);
    }
    Ok(Some(Inode {
        name: read_name(alloc, bytes, j)?,
        owner: owner_at(bytes, j),
        perms: perms_at(bytes, j),
        size: size_in_image(bytes, j),
        blocks: read_blocks(alloc, bytes, j)?,
    }))
}

/// The files of all records.
pub(crate) fn read_files(alloc: Global, bytes: &[u8]) -> Result<InodeList, OutOfMemory>
    requires image { HasRecords bytes.now }
    requires total { Obeys bytes.now BlockCount }
    requires counts { Obeys bytes.now ExtentCount }
    requires ranges { Obeys bytes.now ExtentRange }
    ensures { IfOk result (λ files.
        files ≡ map (inode_in_image bytes.now) (range_with_len 0 (inode_count bytes.now))) }
{
    let mut files = List::new(alloc);
    for j in 0..inode_count(bytes) {
        files.push(read_file(alloc, bytes, j)?)?;
    }
    Ok(files)
}
