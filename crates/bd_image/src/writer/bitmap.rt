//! The bitmap of an image.
ghost use Rattle.std.specs.Prelude.{◌≡◌, ℕ, ◌*◌, ◌≤◌, ◌||◌, ◌++◌, length, IfOk, OnOk};
ghost use Rattle.bd_base.specs.declared.limits.TheConstants.{BLOCKS, FILES};
ghost use Rattle.std.specs.List.{list_any};
ghost use Rattle.bd_base.specs.Bytes.{AreBytes};
ghost use Rattle.bd_image.specs.Bits.{is_set};
ghost use Rattle.bd_image.specs.Volumes.{bitmap_bytes, bitmap_front, owns_block};

use crate::bits::{mark_blocks, mark_range};
use bd_base::{BLOCK_SIZE, Inode, OutOfMemory, data_start};
use std::alloc::Global;

/// Sets the bits of all blocks of all files.
fn mark_files(bits: &mut [u8], inodes: &[Option<Inode>])
    requires { BLOCKS ≤ 8 * length bits.old }
    ensures marks { (y : ℕ) →
        is_set bits.new y ≡ (is_set bits.old y || list_any (owns_block y) inodes.now) }
    ensures bytes { AreBytes bits.old → AreBytes bits.new }
{
    for inode in inodes {
        if let Some(file) = inode {
            mark_blocks(bits, file.blocks.as_slice());
        }
    }
}

/// The first `count` bytes of the bitmap of these files: a bit for each block of the metadata and of each file.
fn bitmap_front(
    alloc: Global,
    count: usize,
    inodes: &[Option<Inode>],
) -> Result<Vec<u8>, OutOfMemory>
    requires blocks { BLOCKS ≤ 8 * count }
    requires few { length inodes.now ≤ FILES }
    ensures { IfOk result (λ bits. bits.items ≡ bitmap_front count inodes.now) }
{
    let mut bits = vec![in alloc; 0; count]?;
    mark_range(&mut bits, 0, data_start(inodes.len() as u64));
    mark_files(&mut bits, inodes);
    Ok(bits)
}

/// Appends the bitmap of these files, a block long.
pub(crate) fn push_bitmap(
    alloc: Global,
    out: &mut Vec<u8>,
    inodes: &[Option<Inode>],
) -> Result<(), OutOfMemory>
    requires { length inodes.now ≤ FILES }
    ensures { OnOk result (out.new.items ≡ out.old.items ++ bitmap_bytes inodes.now) }
{
    let bits = bitmap_front(alloc, BLOCK_SIZE as usize, inodes)?;
    out.extend_from_slice(&bits)?;
    Ok(())
}
