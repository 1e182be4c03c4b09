//! The rules of the first block.
ghost use Rattle.std.specs.Prelude.{◌≡◌, ℕ, ◌+◌, ◌*◌, ◌<◌, ◌≤◌, length, MatchOption};
ghost use Rattle.bd_image.specs.Layout.{byte_at};
ghost use Rattle.bd_image.specs.Rules.{BlockCount, HeaderRest, InodeCount, TellsBreak, Length, Magic, Obeys, Version};

use crate::layout::{
    BITMAP_PLACE, HEADER_BYTES, INODES_PLACE, LEAST_INODES, LEAST_LENGTH, LENGTH_PLACE, MAGIC,
    VERSION, VERSION_PLACE,
};
use crate::reader::fields::{block_count, inode_count, version};
use crate::reader::zeros::first_nonzero;
use bd_base::{BLOCK_SIZE, FILES, IMAGE_SIZE};

/// The length is that of whole blocks, and neither too small nor too large.
pub(crate) fn check_length(bytes: &[u8]) -> Option<u64>
    ensures { TellsBreak bytes.now Length result }
{
    let length = bytes.len() as u64;
    if length % BLOCK_SIZE == 0 && LEAST_LENGTH <= length && length <= IMAGE_SIZE {
        None
    } else {
        Some(length.min(IMAGE_SIZE + 1))
    }
}

/// The image begins as images do.
pub(crate) fn check_magic(bytes: &[u8]) -> Option<u64>
    requires { Obeys bytes.now Length }
    ensures { TellsBreak bytes.now Magic result }
{
    if bytes.starts_with(&MAGIC) {
        None
    } else {
        Some(0)
    }
}

/// The version is the one that is read here.
pub(crate) fn check_version(bytes: &[u8]) -> Option<u64>
    requires { Obeys bytes.now Length }
    ensures { TellsBreak bytes.now Version result }
{
    if version(bytes) == VERSION {
        None
    } else {
        Some(VERSION_PLACE)
    }
}

/// The number of blocks is that of the image.
pub(crate) fn check_block_count(bytes: &[u8]) -> Option<u64>
    requires { Obeys bytes.now Length }
    ensures { TellsBreak bytes.now BlockCount result }
{
    if u64::from(block_count(bytes)) * BLOCK_SIZE == bytes.len() as u64 {
        None
    } else {
        Some(LENGTH_PLACE)
    }
}

/// The records fill whole blocks, and are neither too few nor too many.
pub(crate) fn check_inode_count(bytes: &[u8]) -> Option<u64>
    requires { Obeys bytes.now Length }
    ensures { TellsBreak bytes.now InodeCount result }
{
    let count = inode_count(bytes);
    if count % LEAST_INODES == 0 && LEAST_INODES <= count && count <= FILES {
        None
    } else {
        Some(INODES_PLACE)
    }
}

/// The rest of the first block is zero.
pub(crate) fn check_header_rest(bytes: &[u8]) -> Option<u64>
    requires { Obeys bytes.now Length }
    ensures { TellsBreak bytes.now HeaderRest result }
{
    first_nonzero(bytes, HEADER_BYTES, BITMAP_PLACE)
}
