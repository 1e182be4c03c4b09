//! Images that are read and written again.
use crate::{parse, render};
use bd_base::List;
use std::alloc::{AllocError, Global};
use std::test::Fail;

/// Writes the bytes, where they lie within the image.
fn put(image: &mut [u8], place: usize, bytes: &[u8]) {
    if place <= image.len() && bytes.len() <= image.len() - place {
        image[place..place + bytes.len()].copy_from_slice(bytes);
    }
}

/// An image of 20 blocks: in record 0 the file `a`, five bytes in block 3, and in record 2 the file
/// `long-name_0.txt`, 8193 bytes in the blocks 5, 6 and 9. Block 4 is free and holds a byte.
fn two_files(alloc: Global, length: usize) -> Result<Vec<u8>, AllocError> {
    let mut image = vec![in alloc; 0u8; length]?;
    put(&mut image, 0, b"BYPDFS01\x01\0\0\0\x14\0\0\0\x10\0\0\0");
    put(&mut image, 4096, &[0b0110_1111, 0b0000_0010]);
    put(
        &mut image,
        8192,
        b"\x01\x0F\x01\0\x64\0\0\0\x05\0\0\0\0\0\0\0a",
    );
    put(&mut image, 8240, &[3, 0, 0, 0, 1, 0, 0, 0]);
    put(
        &mut image,
        8704,
        b"\x01\x03\x02\0\x07\x01\0\xFF\x01\x20\0\0\0\0\0\0long-name_0.txt",
    );
    put(&mut image, 8752, &[5, 0, 0, 0, 2, 0, 0, 0, 9, 0, 0, 0, 1]);
    put(&mut image, 12_288, b"hello");
    put(&mut image, 16_384, &[9]);
    put(&mut image, 20_480, b"first");
    put(&mut image, 36_864, b"l");
    put(&mut image, 81_919, &[7]);
    Ok(image)
}

#[test]
fn gives_back_the_image_that_was_read(rt: HostRuntime) -> Result<(), Fail> {
    let image = two_files(rt.alloc(), 81_920)?;
    let read = List::from_vec(image.as_slice().to_vec(rt.alloc())?);
    let volume = parse(rt.alloc(), read)?;
    let written = render(rt.alloc(), &volume)?;
    assert_eq!(rt; written.as_slice(), image.as_slice());
    Ok(())
}
