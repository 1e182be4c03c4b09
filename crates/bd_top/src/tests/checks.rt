//! Images that are checked.
use super::{
    Inputs, MOST, Most, SCRIPT, SURE, check_image, command_in_pieces, first_image, is_refused, put,
    replay_image, set,
};
use crate::Status;
use std::alloc::Global;
use std::process::Abort;
use std::test::Fail;

/// Expects that the image is accepted, and what is told of it.
fn is_told(rt: &(impl Abort + AllocGlobal), image: Vec<u8>, want: &[u8]) -> Result<(), Fail> {
    let left = check_image(rt.alloc(), image, SURE)?;
    assert_eq!(rt; left.outcome.status, Status::Done);
    assert!(rt; left.out.held() == want);
    assert!(rt; left.disk.held().is_empty());
    Ok(())
}

/// Beside `a` the file `b`, 8192 bytes in the blocks 5 and 7, and the empty file `c`.
fn three_files(alloc: Global) -> Result<Vec<u8>, Fail> {
    let mut image = first_image(alloc)?;
    set(&mut image, 4096, 0xAF);
    put(&mut image, 8448, b"\x01\x03\x02\0\x07\0\0\0\0\x20");
    put(&mut image, 8464, b"b");
    put(&mut image, 8496, b"\x05\0\0\0\x01\0\0\0\x07\0\0\0\x01");
    put(&mut image, 8704, b"\x01\x03\0\0\x07");
    put(&mut image, 8720, b"c");
    Ok(image)
}

/// No file: the bitmap marks the three blocks of the metadata.
fn no_files(alloc: Global) -> Result<Vec<u8>, Fail> {
    let mut image = first_image(alloc)?;
    set(&mut image, 4096, 0x07);
    put(&mut image, 8192, b"\0\0\0\0\0\0\0\0\0");
    put(&mut image, 8208, b"\0");
    put(&mut image, 8240, b"\0\0\0\0\0");
    Ok(image)
}

#[test]
fn counts_files_and_free_blocks(rt: HostRuntime) -> Result<(), Fail> {
    let none = no_files(rt.alloc())?;
    is_told(&rt, none, b"accepted blocks 20 files 0 free 17\n")?;
    let one = first_image(rt.alloc())?;
    is_told(&rt, one, b"accepted blocks 20 files 1 free 16\n")?;
    let three = three_files(rt.alloc())?;
    is_told(&rt, three, b"accepted blocks 20 files 3 free 14\n")
}

/// Expects that a check and a replay refuse the image so.
fn is_bad(
    rt: &(impl Abort + AllocGlobal),
    image: Vec<u8>,
    rule: u8,
    place: u64,
) -> Result<(), Fail> {
    let want = Status::BadImage { rule, place };
    let copy = image.as_slice().to_vec(rt.alloc())?;
    is_refused(rt, &check_image(rt.alloc(), copy, SURE)?, want);
    is_refused(rt, &replay_image(rt.alloc(), image, SCRIPT, SURE)?, want);
    Ok(())
}

/// The first image with two extents of `a` that adjoin.
fn adjoining_extents(alloc: Global) -> Result<Vec<u8>, Fail> {
    let mut image = first_image(alloc)?;
    set(&mut image, 4096, 0x1F);
    put(&mut image, 8192, b"\x01\x0F\x02\0\x64\0\0\0\0\x20");
    put(&mut image, 8240, b"\x03\0\0\0\x01\0\0\0\x04\0\0\0\x01");
    Ok(image)
}

#[test]
fn refuses_bad_images(rt: HostRuntime) -> Result<(), Fail> {
    is_bad(&rt, adjoining_extents(rt.alloc())?, 15, 8248)?;
    // A byte past the size.
    let mut image = first_image(rt.alloc())?;
    set(&mut image, 12_294, 1);
    is_bad(&rt, image, 18, 12_294)?;
    // A bit for a free block.
    let mut image = first_image(rt.alloc())?;
    set(&mut image, 4096, 0x1F);
    is_bad(&rt, image, 19, 4096)
}

#[test]
fn refuses_images_of_other_lengths(rt: HostRuntime) -> Result<(), Fail> {
    for length in [0, 1, 81_919, 81_921] {
        let mut image = first_image(rt.alloc())?;
        image.resize(length, 0)?;
        is_bad(&rt, image, 1, length as u64)?;
    }
    Ok(())
}

/// Expects that a check refuses an image of so many bytes, which are past the limit.
fn is_too_long(rt: &(impl Abort + AllocGlobal), length: usize) -> Result<(), Fail> {
    let alloc = rt.alloc();
    let inputs = Inputs {
        image: vec![in alloc; 0u8; length]?,
        script: b"",
        journal: b"",
    };
    let pieces = Most {
        image: 1_000_000,
        ..MOST
    };
    let words = ["check", "image"];
    let left = command_in_pieces(alloc, words.as_slice(), inputs, pieces, SURE)?;
    let want = Status::BadImage {
        rule: 1,
        place: 67_108_865,
    };
    is_refused(rt, &left, want);
    Ok(())
}

#[test]
fn refuses_an_image_past_the_limit(rt: HostRuntime) -> Result<(), Fail> {
    // One byte and more past the longest image: one byte past it is read.
    is_too_long(&rt, 67_108_865)?;
    is_too_long(&rt, 67_108_870)
}
