//! Images that are read and images that are refused.
use crate::{ImageError, parse};
use bd_base::{BlockList, Bytes, List, Volume};
use std::alloc::{AllocError, Global};
use std::test::Fail;

/// Bytes that are written at a place.
type Edit = (usize, &'static [u8]);

/// Writes the bytes, where they lie within the image.
fn put(image: &mut [u8], place: usize, bytes: &[u8]) {
    if place <= image.len() && bytes.len() <= image.len() - place {
        image[place..place + bytes.len()].copy_from_slice(bytes);
    }
}

/// An image of 20 blocks with the file `a`, five bytes in block 3, after these edits.
fn with_one_file(alloc: Global, length: usize, edits: &[Edit]) -> Result<Bytes, AllocError> {
    let mut image = vec![in alloc; 0u8; length]?;
    put(&mut image, 0, b"BYPDFS01\x01\0\0\0\x14\0\0\0\x10\0\0\0");
    put(&mut image, 4096, &[0x0F]);
    put(
        &mut image,
        8192,
        b"\x01\x0F\x01\0\x64\0\0\0\x05\0\0\0\0\0\0\0a",
    );
    put(&mut image, 8240, &[3, 0, 0, 0, 1, 0, 0, 0]);
    put(&mut image, 12_288, b"hello");
    for (place, bytes) in edits {
        put(&mut image, *place, bytes);
    }
    Ok(List::from_vec(image))
}

/// The same with the file `b` after it, 8192 bytes in the blocks 5 and 7.
fn with_two_files(alloc: Global, edits: &[Edit]) -> Result<Bytes, AllocError> {
    let mut image = with_one_file(alloc, 81_920, &[])?.into_vec();
    put(&mut image, 4096, &[0xAF]);
    put(
        &mut image,
        8448,
        b"\x01\x03\x02\0\x07\0\0\0\0\x20\0\0\0\0\0\0b",
    );
    put(&mut image, 8496, &[5, 0, 0, 0, 1, 0, 0, 0, 7, 0, 0, 0, 1]);
    for (place, bytes) in edits {
        put(&mut image, *place, bytes);
    }
    Ok(List::from_vec(image))
}

/// The blocks as numbers.
fn numbers(alloc: Global, blocks: &BlockList) -> Result<Vec<u64>, AllocError> {
    blocks
        .as_slice()
        .iter()
        .map(|block| block.get())
        .collect(alloc)
}

/// The rule and the place that are told of the image, zeros where it is accepted.
fn told(alloc: Global, image: Bytes) -> Result<(u8, u64), Fail> {
    match parse(alloc, image) {
        Ok(_) => Ok((0, 0)),
        Err(ImageError::BadImage { rule, place }) => Ok((rule, place)),
        Err(error) => Err(error)?,
    }
}

#[test]
fn reads_the_files_of_an_image(rt: HostRuntime) -> Result<(), Fail> {
    let image = with_two_files(rt.alloc(), &[])?;
    let volume: Volume = parse(rt.alloc(), image)?;
    assert_eq!(rt; volume.total, 20);
    assert_eq!(rt; volume.inodes.len(), 16);
    for (j, file) in volume.inodes.as_slice().iter().enumerate() {
        assert_eq!(rt; file.is_some(), j < 2);
    }
    if let [Some(a), Some(b), ..] = volume.inodes.as_slice() {
        assert_eq!(rt; a.name.as_slice(), b"a".as_slice());
        assert_eq!(rt; (a.owner, a.perms, a.size), (100, 15, 5));
        assert_eq!(rt; numbers(rt.alloc(), &a.blocks)?.as_slice(), [3].as_slice());
        assert_eq!(rt; b.name.as_slice(), b"b".as_slice());
        assert_eq!(rt; (b.owner, b.perms, b.size), (7, 3, 8192));
        assert_eq!(rt;
            numbers(rt.alloc(), &b.blocks)?.as_slice(),
            [5, 7].as_slice()
        );
    }
    let bytes = volume.bytes.as_slice();
    assert_eq!(rt; bytes.len(), 81_920);
    assert!(rt; bytes.iter().take(12_288).all(|byte| *byte == 0));
    assert!(rt; bytes.iter().skip(12_288).take(5).eq(b"hello".iter()));
    Ok(())
}

#[test]
fn tells_the_rules_of_the_first_block(rt: HostRuntime) -> Result<(), Fail> {
    let cases: [(&[Edit], u8, u64); 14] = [
        (&[], 0, 0),
        (&[(0, b"C")], 2, 0),
        (&[(7, b"2")], 2, 0),
        (&[(8, &[2])], 3, 8),
        (&[(11, &[1])], 3, 8),
        (&[(12, &[21])], 4, 12),
        (&[(16, &[17])], 5, 16),
        (&[(16, &[0])], 5, 16),
        (&[(16, &[16, 1])], 5, 16),
        (&[(20, &[1])], 6, 20),
        (&[(4095, &[9])], 6, 4095),
        (&[(100, &[1]), (50, &[1])], 6, 50),
        (&[(0, &[0]), (8, &[2])], 2, 0),
        (&[(8, &[2]), (12, &[21])], 3, 8),
    ];
    for (edits, rule, place) in cases {
        let image = with_two_files(rt.alloc(), edits)?;
        assert_eq!(rt;
            told(rt.alloc(), image)?,
            (rule, place),
            "rule {rule} at {place}"
        );
    }
    Ok(())
}

#[test]
fn tells_the_rules_of_records(rt: HostRuntime) -> Result<(), Fail> {
    let cases: [(&[Edit], u8, u64); 12] = [
        (&[(8192, &[2])], 7, 8192),
        (&[(12032, &[2]), (8448, &[3])], 7, 8448),
        (&[(16, &[32])], 7, 12_288),
        (&[(8705, &[1])], 8, 8705),
        (&[(8961, &[1]), (8959, &[1])], 8, 8959),
        (&[(8193, &[16])], 9, 8193),
        (&[(8449, &[255]), (8193, &[16])], 9, 8193),
        (&[(8194, &[25])], 10, 8194),
        (&[(8451, &[1])], 10, 8450),
        (&[(8450, &[25]), (8194, &[25])], 10, 8194),
        (&[(8448, &[1, 16]), (8705, &[1])], 8, 8705),
        (&[(8193, &[16]), (8194, &[25])], 9, 8193),
    ];
    for (edits, rule, place) in cases {
        let image = with_two_files(rt.alloc(), edits)?;
        assert_eq!(rt;
            told(rt.alloc(), image)?,
            (rule, place),
            "rule {rule} at {place}"
        );
    }
    Ok(())
}

#[test]
fn tells_the_rules_of_names(rt: HostRuntime) -> Result<(), Fail> {
    let cases: [(&[Edit], u8, u64); 12] = [
        (&[(8208, &[0])], 11, 8208),
        (&[(8208, b"A")], 11, 8208),
        (&[(8208, b"a/b")], 11, 8208),
        (&[(8210, b"b")], 11, 8208),
        (&[(8464, b"abcdefghijklmnopqrstuvwxyz012345")], 11, 8464),
        (&[(8464, b"B"), (8208, b"A")], 11, 8208),
        (&[(8464, b"a")], 12, 8464),
        (&[(8704, b"\x01\x0F"), (8720, b"b")], 12, 8720),
        (&[(8464, b"a"), (8704, b"\x01\x0F"), (8720, b"a")], 12, 8464),
        (&[(8464, b"a"), (8704, b"\x01\x0F"), (8720, b"A")], 11, 8720),
        (
            &[(8208, b"abcdefghijklmnopqrstuvwxyz0129."), (8464, b"_-")],
            0,
            0,
        ),
        (&[(8208, b"A"), (8193, &[16])], 9, 8193),
    ];
    for (edits, rule, place) in cases {
        let image = with_two_files(rt.alloc(), edits)?;
        assert_eq!(rt;
            told(rt.alloc(), image)?,
            (rule, place),
            "rule {rule} at {place}"
        );
    }
    Ok(())
}

#[test]
fn tells_the_rules_of_extents(rt: HostRuntime) -> Result<(), Fail> {
    let cases: [(&[Edit], u8, u64); 16] = [
        (&[(8248, &[1])], 13, 8248),
        (&[(8447, &[1])], 13, 8447),
        (&[(8512, &[1]), (8440, &[1])], 13, 8440),
        (&[(8464, b"a"), (8248, &[1])], 12, 8464),
        (&[(8244, &[0])], 14, 8240),
        (&[(8240, &[2])], 14, 8240),
        (&[(8508, &[14])], 14, 8504),
        (&[(8243, &[255])], 14, 8240),
        (&[(8504, &[21]), (8496, &[2])], 14, 8496),
        (&[(16, &[32]), (12_288, &[0, 0, 0, 0, 0])], 14, 8240),
        (&[(8504, &[6])], 15, 8504),
        (
            &[(8450, &[3]), (8504, &[6]), (8512, &[7, 0, 0, 0, 1])],
            15,
            8504,
        ),
        (&[(8504, &[3])], 16, 8504),
        (&[(8504, &[5])], 16, 8504),
        (&[(8496, &[3]), (8504, &[3])], 16, 8496),
        (&[(8504, &[6]), (8240, &[5])], 15, 8504),
    ];
    for (edits, rule, place) in cases {
        let image = with_two_files(rt.alloc(), edits)?;
        assert_eq!(rt;
            told(rt.alloc(), image)?,
            (rule, place),
            "rule {rule} at {place}"
        );
    }
    Ok(())
}

#[test]
fn tells_the_rules_of_sizes_and_blocks(rt: HostRuntime) -> Result<(), Fail> {
    let cases: [(&[Edit], u8, u64); 19] = [
        (&[(8200, &[0])], 17, 8200),
        (&[(8200, &[1, 16])], 17, 8200),
        (&[(8204, &[1])], 17, 8200),
        (&[(8456, &[1, 32]), (8200, &[0])], 17, 8200),
        (&[(8456, &[1, 32])], 17, 8456),
        (&[(8200, &[0]), (8504, &[3])], 16, 8504),
        (&[(12293, &[1])], 18, 12293),
        (&[(12294, &[1])], 18, 12294),
        (&[(16383, &[7]), (12300, &[1])], 18, 12300),
        (&[(8456, &[255, 31]), (32767, &[1])], 18, 32767),
        (
            &[
                (8240, &[7]),
                (8504, &[3]),
                (8456, &[255, 31]),
                (12288, &[0, 0, 0, 0, 0]),
                (28672, b"hello!"),
                (16383, &[1]),
            ],
            18,
            16383,
        ),
        (
            &[
                (8240, &[7]),
                (8504, &[3]),
                (8456, &[255, 31]),
                (28677, &[1]),
            ],
            18,
            28677,
        ),
        (&[(4096, &[191])], 19, 4096),
        (&[(4096, &[47])], 19, 4096),
        (&[(4096, &[174])], 19, 4096),
        (&[(4098, &[16])], 19, 4098),
        (&[(8191, &[128])], 19, 8191),
        (&[(8191, &[1]), (4097, &[1])], 19, 4097),
        (&[(4096, &[191]), (12293, &[1])], 18, 12293),
    ];
    for (edits, rule, place) in cases {
        let image = with_two_files(rt.alloc(), edits)?;
        assert_eq!(rt;
            told(rt.alloc(), image)?,
            (rule, place),
            "rule {rule} at {place}"
        );
    }
    Ok(())
}

#[test]
fn tells_the_length_read(rt: HostRuntime) -> Result<(), Fail> {
    for (length, rule, place) in [
        (0, 1, 0),
        (77_824, 1, 77_824),
        (81_919, 1, 81_919),
        (81_920, 0, 0),
        (81_921, 1, 81_921),
        (86_016, 4, 12),
        (67_108_865, 1, 67_108_865),
        (67_112_960, 1, 67_108_865),
    ] {
        let image = with_one_file(rt.alloc(), length, &[])?;
        assert_eq!(rt; told(rt.alloc(), image)?, (rule, place), "length {length}");
    }
    Ok(())
}

#[test]
fn reads_the_largest_image(rt: HostRuntime) -> Result<(), Fail> {
    let image = with_one_file(rt.alloc(), 67_108_864, &[(12, &[0, 64])])?;
    assert_eq!(rt; told(rt.alloc(), image)?, (0, 0));
    Ok(())
}

#[test]
fn tells_the_first_fault_of_one_file(rt: HostRuntime) -> Result<(), Fail> {
    let cases: [(&[Edit], usize, u8, u64); 4] = [
        (
            &[
                (8194, &[2]),
                (8200, &[0, 32]),
                (8248, &[4, 0, 0, 0, 1]),
                (4096, &[0x1F]),
            ],
            81_920,
            15,
            8248,
        ),
        (&[(12_294, &[1])], 81_920, 18, 12_294),
        (&[(4096, &[0x1F])], 81_920, 19, 4096),
        (&[], 81_919, 1, 81_919),
    ];
    for (edits, length, rule, place) in cases {
        let image = with_one_file(rt.alloc(), length, edits)?;
        assert_eq!(rt;
            told(rt.alloc(), image)?,
            (rule, place),
            "rule {rule} at {place}"
        );
    }
    Ok(())
}
