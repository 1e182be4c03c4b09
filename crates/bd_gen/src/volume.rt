//! The volume that is made, and its image.
ghost use Rattle.std.specs.Prelude.{◌≡◌, ◌<◌, IfOk};
ghost use Rattle.bd_gen.specs.Volume.{file_name, made_file, made_inodes, made_slot, made_volume};
ghost use Rattle.bd_image.specs.Rules.{Accepted};
ghost use Rattle.bd_image.specs.Volumes.{image_of, volume_of};

use crate::bytes::repeated;
use bd_base::{
    BLOCK_RECORDS, BLOCK_SIZE, BLOCKS, Bytes, Extent, IMAGE_SIZE, Inode, InodeList, List, Name,
    OutOfMemory, PERMS, Volume, data_start,
};
use bd_extents::blocks_of;
use bd_image::{render, sound_volumes};
use std::alloc::Global;

/// How many files there are.
pub(crate) const FILES_MADE: u64 = 8;

/// How many blocks each has, all in one extent.
const FILE_BLOCKS_MADE: u32 = 2000;

/// The owner of every file.
const OWNER: u32 = 1000;

/// The name of a file: `f` and its digit.
#[tactic(auto, unfolding(crate::specs::Volume::file_name))]
pub(crate) fn file_name(alloc: Global, file: u64) -> Result<Name, OutOfMemory>
    requires { file < 8 }
    ensures { IfOk result (λ name. name ≡ file_name file) }
{
    List::from_slice(alloc, &[b'f', b'0' + file as u8])
}

/// A file. Its blocks follow those of the file before it, the first ones the metadata.
#[tactic(auto, unfolding(crate::specs::Volume::made_file, crate::specs::Volume::file_extent))]
fn made_file(alloc: Global, file: u64) -> Result<Inode, OutOfMemory>
    requires { file < 8 }
    ensures { IfOk result (λ inode. inode ≡ made_file file) }
{
    let extent = Extent {
        start: data_start(BLOCK_RECORDS) as u32 + FILE_BLOCKS_MADE * file as u32,
        length: FILE_BLOCKS_MADE,
    };
    Ok(Inode {
        name: file_name(alloc, file)?,
        owner: OWNER,
        perms: (PERMS - 1) as u8,
        size: BLOCK_SIZE * u64::from(FILE_BLOCKS_MADE),
        blocks: blocks_of(alloc, &[extent])?,
    })
}

/// The record of this number: a file, or none.
#[tactic(auto, using(std::proofs::lemmas::Bool::Decides::nat_tests), unfolding(crate::specs::Volume::made_slot))]
fn made_slot(alloc: Global, record_number: u64) -> Result<Option<Inode>, OutOfMemory>
    ensures { IfOk result (λ slot. slot ≡ made_slot record_number) }
{
    if record_number < FILES_MADE {
        Ok(Some(made_file(alloc, record_number)?))
    } else {
        Ok(None)
    }
}

/// The files by their ids.
fn made_inodes(alloc: Global) -> Result<InodeList, OutOfMemory>
    ensures { IfOk result (λ inodes. inodes ≡ made_inodes) }
{
    let mut inodes = List::with_capacity(alloc, BLOCK_RECORDS as usize)?;
    for record_number in 0..BLOCK_RECORDS {
        inodes.push(made_slot(alloc, record_number)?)?;
    }
    Ok(inodes)
}

/// The volume: as many blocks as an image may have, and zeros in all of them.
#[tactic(auto, unfolding(crate::specs::Volume::made_volume))]
fn made_volume(alloc: Global) -> Result<Volume, OutOfMemory>
    ensures { IfOk result (λ volume. volume ≡ made_volume) }
{
    Ok(Volume {
        total: BLOCKS as u32,
        inodes: made_inodes(alloc)?,
        bytes: repeated(alloc, IMAGE_SIZE as usize, 0)?,
    })
}

/// The image of that volume.
pub(crate) fn made_image(alloc: Global) -> Result<Bytes, OutOfMemory>
    ensures image { IfOk result (λ image. image ≡ image_of made_volume) }
    ensures accepted { IfOk result (λ image. Accepted image) }
    ensures says { IfOk result (λ image. volume_of image ≡ made_volume) }
{
    sound_volumes();
    let volume = made_volume(alloc)?;
    render(alloc, &volume)
}
