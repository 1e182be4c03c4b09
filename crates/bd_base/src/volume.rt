//! Files and volumes: what an image says.
ghost use Rattle.std.specs.Prelude.{◌≡◌, IfOk};
ghost use Rattle.bd_base.specs.Files.{data_start};

use crate::limits::BLOCK_RECORDS;
use crate::list::{Bytes, List, OutOfMemory};
use crate::numbers::BlockNo;
use std::alloc::Global;

/// A file's name.
pub type Name = List<u8>;

/// Blocks in the order in which a file has them.
pub type BlockList = List<BlockNo>;

/// The files of a volume by their ids; None where an id is free.
pub type InodeList = List<Option<Inode>>;

/// A file.
#[derive(Debug, Drop)]
pub struct Inode {
    /// 1 to 31 bytes of `a` to `z`, `0` to `9`, `.`, `_` and `-`.
    pub name: Name,
    /// The uid of its owner.
    pub owner: u32,
    /// A sum of 1 owner read, 2 owner write, 4 other read, 8 other write.
    pub perms: u8,
    /// In bytes, at most [`crate::FILE_SIZE`].
    pub size: u64,
    /// As many as the size needs.
    pub blocks: BlockList,
}

impl Inode {
    /// The same file.
    pub fn copy(&self) -> Result<Inode, OutOfMemory>
        ensures { IfOk result (λ inode. inode ≡ self.now) }
    {
        Ok(Inode {
            name: self.name.copy()?,
            owner: self.owner,
            perms: self.perms,
            size: self.size,
            blocks: self.blocks.copy()?,
        })
    }
}

/// The same file in a slot.
fn copy_slot(slot: &Option<Inode>) -> Result<Option<Inode>, OutOfMemory>
    ensures { IfOk result (λ copy. copy ≡ slot.now) }
{
    match slot {
        Some(file) => Ok(Some(file.copy()?)),
        None => Ok(None),
    }
}

/// The same files.
pub fn copy_inodes(alloc: Global, inodes: &[Option<Inode>]) -> Result<InodeList, OutOfMemory>
    ensures { IfOk result (λ copy. copy ≡ inodes.now) }
{
    let mut copy = List::with_capacity(alloc, inodes.len())?;
    for slot in inodes {
        copy.push(copy_slot(slot)?)?;
    }
    Ok(copy)
}

/// The first data block of an image with room for `capacity` files. Before it stand the header, the bitmap and the
/// records of the files, 16 to a block.
pub fn data_start(capacity: u64) -> u64
    ensures { result ≡ data_start capacity }
{
    2 + capacity / BLOCK_RECORDS
}

/// Blocks in a row: `length` of them from `start` on.
#[derive(Clone, Copy, Debug, PartialEq, Eq)]
pub struct Extent {
    pub start: u32,
    pub length: u32,
}

/// Extents in the order in which a file has them.
pub type ExtentList = List<Extent>;

/// A disk image as data.
#[derive(Debug, Drop)]
pub struct Volume {
    /// The number of blocks.
    pub total: u32,
    /// The files by their ids.
    pub inodes: InodeList,
    /// The bytes of all blocks, block b from 4096 * b on; those of the metadata blocks are 0.
    pub bytes: Bytes,
}
