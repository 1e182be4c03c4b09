//! Images for runs.
use super::{put, set};
use std::alloc::{AllocError, Global};

/// A file of an image: user 100, all permissions, one extent.
#[derive(Clone, Copy)]
pub(super) struct File<'a> {
    pub(super) inode: u8,
    pub(super) name: &'a [u8],
    pub(super) size: u32,
    pub(super) start: u16,
    pub(super) blocks: u16,
}

/// Writes a number of four bytes.
fn put_number(image: &mut [u8], place: usize, number: u32) {
    let low = number % 65_536;
    let high = number / 65_536;
    put_half(image, place, low as u16);
    put_half(image, place.saturating_add(2), high as u16);
}

/// Writes a number of two bytes.
fn put_half(image: &mut [u8], place: usize, number: u16) {
    set(image, place, (number % 256) as u8);
    set(image, place.saturating_add(1), (number / 256) as u8);
}

/// Marks these blocks in the bitmap.
fn mark(image: &mut [u8], start: u16, blocks: u16) {
    for number in 0..blocks {
        let block = usize::from(start) + usize::from(number);
        let place = 4096 + block / 8;
        let bit = 1u8 << (block % 8);
        let old = image.get(place).copied().unwrap_or(0);
        set(image, place, old | bit);
    }
}

/// An image of so many blocks, with room for so many inodes, and with no file.
pub(super) fn blank(alloc: Global, blocks: u16, inodes: u16) -> Result<Vec<u8>, AllocError> {
    let mut image = vec![in alloc; 0u8; 4096 * usize::from(blocks)]?;
    put(&mut image, 0, b"BYPDFS01\x01");
    put_number(&mut image, 12, u32::from(blocks));
    put_number(&mut image, 16, u32::from(inodes));
    mark(&mut image, 0, 2 + inodes / 16);
    Ok(image)
}

/// Adds a file to an image.
pub(super) fn add(image: &mut [u8], file: File<'_>) {
    let record = 8192 + 256 * usize::from(file.inode);
    put(image, record, b"\x01\x0F\x01\0\x64");
    put_number(image, record + 8, file.size);
    put(image, record + 16, file.name);
    put_number(image, record + 48, u32::from(file.start));
    put_number(image, record + 52, u32::from(file.blocks));
    mark(image, file.start, file.blocks);
}

/// Writes this byte so often, from a place in a block on.
pub(super) fn fill(image: &mut [u8], block: u16, place: u16, byte: u8, count: u16) {
    for number in 0..count {
        let at = 4096 * usize::from(block) + usize::from(place) + usize::from(number);
        set(image, at, byte);
    }
}

/// An image of so many blocks with the one file `a`, whose blocks begin at block 3.
pub(super) fn one_file(
    alloc: Global,
    total: u16,
    size: u32,
    blocks: u16,
) -> Result<Vec<u8>, AllocError> {
    let mut image = blank(alloc, total, 16)?;
    let file = File {
        inode: 0,
        name: b"a",
        size,
        start: 3,
        blocks,
    };
    add(&mut image, file);
    Ok(image)
}
