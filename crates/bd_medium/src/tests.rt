//! A device that is used through its trait, at blocks in memory.
ghost use Rattle.std.specs.Prelude.{◌≡◌, ◌-◌, IfOk, length};
ghost use Rattle.bd_medium.specs.Contents.{HasBlock};

use crate::{Medium, Plain};
use bd_base::{BlockNo, Bytes, OutOfMemory, Range};
use std::alloc::Global;
use std::test::Fail;

// Puts bytes into a range, and gives those that are then there.
fn put_and_take<M: Medium>(
    medium: &mut M,
    b: BlockNo,
    r: Range,
    bytes: &[u8],
) -> Result<Bytes, OutOfMemory>
    requires block { HasBlock (M.contents medium.old) b }
    requires count { length bytes.now ≡ r.hi - r.lo }
    ensures taken { IfOk result (λ list. list ≡ bytes.now) }
    ensures length { length (M.contents medium.new) ≡ length (M.contents medium.old) }
{
    medium.move_in(b, r, bytes);
    medium.move_out(b, r)
}

// Three blocks of one byte.
fn three_blocks(alloc: Global, byte: u8) -> Result<Plain, OutOfMemory>
    ensures { IfOk result (λ plain. length plain ≡ 12288) }
{
    let bytes = vec![in alloc; byte; 12_288]?;
    Ok(Plain::new(Bytes::from_vec(bytes)))
}

#[test]
fn keeps_what_is_put(rt: HostRuntime) -> Result<(), Fail> {
    let mut plain = three_blocks(rt.alloc(), 0x41)?;
    assert_eq!(rt; plain.total(), 3);
    let b = BlockNo::new(1).ok_or("a block")?;
    assert_eq!(rt; b.get(), 1);
    let end = Range::new(4094, 4096).ok_or("a range")?;
    let put = put_and_take(&mut plain, b, end, &[0x42, 0x43])?;
    assert_eq!(rt; put.as_slice(), [0x42, 0x43].as_slice());
    let around = Range::new(4093, 4096).ok_or("a range")?;
    let kept = plain.move_out(b, around)?;
    assert_eq!(rt; kept.as_slice(), [0x41, 0x42, 0x43].as_slice());
    Ok(())
}

#[test]
fn zeroes_one_block(rt: HostRuntime) -> Result<(), Fail> {
    let mut plain = three_blocks(rt.alloc(), 0x41)?;
    let whole = Range::new(0, 4096).ok_or("a range")?;
    let middle = BlockNo::new(1).ok_or("a block")?;
    assert_eq!(rt; middle.get(), 1);
    plain.zero(middle);
    for (number, byte) in [(0, 0x41), (1, 0), (2, 0x41)] {
        let b = BlockNo::new(number).ok_or("a block")?;
        let bytes = plain.move_out(b, whole)?;
        assert_eq!(rt; bytes.len(), 4096);
        assert!(rt;
            bytes.as_slice().iter().all(|x| *x == byte),
            "block {number}"
        );
    }
    Ok(())
}
