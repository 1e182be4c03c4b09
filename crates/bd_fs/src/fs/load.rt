//! The files of an image as a file system.
ghost use Rattle.std.specs.Prelude.{◌≡◌, ℕ, ◌<◌, ◌≤◌, ◌&&◌, List, All, IfOk, length, slice_index};
ghost use Rattle.std.specs.FinSet as set;
ghost use Rattle.std.specs.Str.{bytes_eq};
ghost use Rattle.indexmap.specs.IndexMap.{get_by};
ghost use Rattle.bd_base.specs.declared.limits.TheConstants.{BLOCKS, EXTENTS, FILES};
ghost use Rattle.bd_base.specs.Allocation.{is_data_block};
ghost use Rattle.bd_base.specs.Extents.{extents_of};
ghost use Rattle.bd_base.specs.Inodes.{AreValidFiles, NamesDiffer, blocks_of_slot, id_of, inode_at, is_free};
ghost use Rattle.bd_fs.specs.Kept.{is_none_of};

use super::Fs;
use super::growth::begins_extent;
use bd_base::{BlockNo, FileId, Inode, InodeList, OutOfMemory, data_start};
use bd_extents::FreeSet;
use indexmap::IndexMap;
use std::alloc::Global;

impl Fs {
    /// The files of an image of `total` blocks.
    ///
    /// The only error is that no memory is found.
    pub fn new(alloc: Global, total: u32, inodes: InodeList) -> Result<Fs, OutOfMemory>
        requires { AreValidFiles total inodes }
        ensures { IfOk result (λ fs. fs ≡ record { total = total; files = inodes }) }
    {
        let files = inodes.as_slice();
        let names = names_of(alloc, files)?;
        let counts = counts_of(alloc, files)?;
        let free = free_blocks_of(alloc, total, files)?;
        Ok(Fs {
            alloc,
            total,
            inodes: inodes.into_vec(),
            counts,
            free,
            names,
        })
    }
}

/// The id of each file by its name.
fn names_of(
    alloc: Global,
    files: &[Option<Inode>],
) -> Result<IndexMap<Vec<u8>, FileId>, OutOfMemory>
    requires few_files { length files.now ≤ FILES }
    requires names_differ { NamesDiffer files.now }
    ensures { IfOk result (λ names. (name : List ℕ) →
        get_by (λ key. bytes_eq name key.items) names ≡ id_of name files.now) }
{
    let mut names = IndexMap::new(alloc);
    for (id, file) in files.iter().enumerate() {
        if let Some(inode) = file {
            let key = Vec::from_slice(alloc, inode.name.as_slice())?;
            let id = FileId::new(id as u64).unwrap();
            names.insert(key, id)?;
        }
    }
    Ok(names)
}

/// How many extents each file has.
fn counts_of(alloc: Global, files: &[Option<Inode>]) -> Result<Vec<u8>, OutOfMemory>
    requires { All (λ file. length (extents_of (blocks_of_slot file)) ≤ EXTENTS) files.now }
    ensures counted { IfOk result (λ counts. (id : ℕ) →
        slice_index counts.items id ≡ length (extents_of (blocks_of_slot (inode_at files.now id)))) }
    ensures all { IfOk result (λ counts. length counts.items ≡ length files.now) }
{
    let mut counts = Vec::new(alloc);
    for file in files {
        counts.push(extents_in(file) as u8)?;
    }
    Ok(counts)
}

/// How many extents a file has.
fn extents_in(file: &Option<Inode>) -> usize
    ensures { result ≡ length (extents_of (blocks_of_slot file.now)) }
{
    match file {
        Some(inode) => extent_count(inode.blocks.as_slice()),
        None => 0,
    }
}

/// How many extents these blocks have.
fn extent_count(blocks: &[BlockNo]) -> usize
    ensures { result ≡ length (extents_of blocks.now) }
{
    let mut count = 0;
    let mut last = None;
    for block in blocks {
        let block = *block;
        if begins_extent(&last, &block) {
            count += 1;
        }
        last = Some(block);
    }
    count
}

/// The free blocks: the data blocks that no file has.
fn free_blocks_of(
    alloc: Global,
    total: u32,
    files: &[Option<Inode>],
) -> Result<FreeSet, OutOfMemory>
    requires { AreValidFiles total files.now }
    ensures total { IfOk result (λ free. free.total ≡ total) }
    ensures free { IfOk result (λ free. (block : ℕ) →
        set.contains free.free block ≡ is_free total files.now block) }
{
    let mut free = data_blocks(alloc, total, files.len())?;
    for file in files {
        if let Some(inode) = file {
            remove_blocks(&mut free, inode.blocks.as_slice());
        }
    }
    Ok(free)
}

/// The data blocks of a volume of `total` blocks with room for `capacity` files.
fn data_blocks(alloc: Global, total: u32, capacity: usize) -> Result<FreeSet, OutOfMemory>
    requires { total ≤ BLOCKS }
    ensures total { IfOk result (λ free. free.total ≡ total) }
    ensures free { IfOk result (λ free. (block : ℕ) →
        set.contains free.free block ≡ is_data_block total capacity block) }
{
    let mut free = FreeSet::new(alloc, total)?;
    for number in data_start(capacity as u64)..u64::from(total) {
        let block = BlockNo::new(number).unwrap();
        free.give_back(block);
    }
    Ok(free)
}

/// Makes these blocks no longer free.
fn remove_blocks(free: &mut FreeSet, blocks: &[BlockNo])
    requires { All (λ block. block < free.old.total) blocks.now }
    ensures total { free.new.total ≡ free.old.total }
    ensures free { (block : ℕ) →
        set.contains free.new.free block ≡ (set.contains free.old.free block && is_none_of blocks.now block) }
{
    for block in blocks {
        free.remove(*block);
    }
}
