//! Ranges that are cut, pieces at the border of what is known, and parts that are put together.
use crate::{PartList, Piece, PieceBytes, PieceList, gather, goes_direct, pieces};
use bd_base::{Bytes, Range};
use std::alloc::Global;
use std::test::Fail;

fn piece(index: u32, lo: u64, hi: u64) -> Result<Piece, Fail> {
    let range = Range::new(lo, hi).ok_or("no range")?;
    Ok(Piece { index, range })
}

fn part(alloc: Global, lo: u64, hi: u64, text: &str) -> Result<PieceBytes, Fail> {
    let range = Range::new(lo, hi).ok_or("no range")?;
    let bytes = Bytes::from_slice(alloc, text.as_bytes())?;
    Ok(PieceBytes { range, bytes })
}

#[test]
fn cuts_at_the_borders_of_blocks(rt: HostRuntime) -> Result<(), Fail> {
    let wanted = [piece(0, 4000, 4096)?, piece(1, 0, 104)?];
    assert_eq!(rt; pieces(4000, 200).as_slice(), wanted.as_slice());
    assert_eq!(rt;
        pieces(5000, 7).as_slice(),
        [piece(1, 904, 911)?].as_slice()
    );
    assert_eq!(rt;
        pieces(4096, 4096).as_slice(),
        [piece(1, 0, 4096)?].as_slice()
    );
    assert_eq!(rt;
        pieces(4095, 1).as_slice(),
        [piece(0, 4095, 4096)?].as_slice()
    );
    Ok(())
}

#[test]
fn cuts_the_longest_range(rt: HostRuntime) -> Result<(), Fail> {
    let wanted = [
        piece(0, 1, 4096)?,
        piece(1, 0, 4096)?,
        piece(2, 0, 4096)?,
        piece(3, 0, 4096)?,
        piece(4, 0, 1)?,
    ];
    assert_eq!(rt; pieces(1, 16_384).as_slice(), wanted.as_slice());
    Ok(())
}

#[test]
fn cuts_at_the_greatest_place(rt: HostRuntime) -> Result<(), Fail> {
    let wanted = [piece(268_435_456, 0, 4096)?, piece(268_435_457, 0, 1)?];
    assert_eq!(rt;
        pieces(1_099_511_627_776, 4097).as_slice(),
        wanted.as_slice()
    );
    Ok(())
}

#[test]
fn keeps_pieces_in_order(rt: HostRuntime) -> Result<(), Fail> {
    let mut list = PieceList::new();
    assert!(rt; list.as_slice().is_empty());
    list.push(piece(7, 1, 2)?);
    list.push(piece(3, 0, 9)?);
    assert_eq!(rt;
        list.as_slice(),
        [piece(7, 1, 2)?, piece(3, 0, 9)?].as_slice()
    );
    Ok(())
}

#[test]
fn goes_direct_up_to_what_is_known(rt: HostRuntime) -> Result<(), Fail> {
    assert!(rt; goes_direct(piece(1, 0, 100)?, 4196));
    assert!(rt; !goes_direct(piece(1, 0, 100)?, 4195));
    assert!(rt; goes_direct(piece(0, 4000, 4096)?, 4096));
    assert!(rt; !goes_direct(piece(0, 4000, 4096)?, 4095));
    Ok(())
}

#[test]
fn gathers_up_to_the_first_short_part(rt: HostRuntime) -> Result<(), Fail> {
    let alloc = rt.alloc();
    let mut parts: PartList = PartList::new(alloc);
    assert!(rt; gather(alloc, &parts)?.is_empty());
    parts.push(part(alloc, 4093, 4096, "abc")?)?;
    parts.push(part(alloc, 0, 4, "defg")?)?;
    assert_eq!(rt; gather(alloc, &parts)?.as_slice(), b"abcdefg".as_slice());
    parts.push(part(alloc, 0, 4, "hi")?)?;
    parts.push(part(alloc, 0, 4, "jklm")?)?;
    assert_eq!(rt; gather(alloc, &parts)?.as_slice(), b"abcdefghi".as_slice());
    Ok(())
}
