//! What a look finds after fills and sweeps.
use crate::{Cell, Key, Lines};
use bd_base::{BlockNo, Fd, Part, Pid};
use std::test::Fail;

fn key(process: u64, fd: u64) -> Result<Key, Fail> {
    Ok(Key {
        process: Pid::new(process).ok_or("a process")?,
        fd: Fd::new(fd).ok_or("a descriptor")?,
        part: Part::new(0).ok_or("a part")?,
    })
}

#[test]
fn a_look_hits_what_was_filled(rt: HostRuntime) -> Result<(), Fail> {
    let mut lines = Lines::new();
    let ours = key(3, 2)?;
    let cell = Cell {
        block: BlockNo::new(9).ok_or("a block")?,
        limit: 5,
    };
    assert_eq!(rt; lines.look(ours, 7, 1), None);
    lines.fill(ours, 7, cell);
    assert_eq!(rt; lines.look(ours, 7, 5), Some(cell));
    assert_eq!(rt; lines.look(ours, 7, 6), None);
    assert_eq!(rt; lines.look(ours, 8, 1), None);
    // Another key whose address has the same line.
    assert_eq!(rt; lines.look(key(2, 3)?, 7, 1), None);
    lines.sweep(12, key(2, 3)?);
    assert_eq!(rt; lines.look(ours, 7, 5), Some(cell));
    lines.sweep(11, ours);
    assert_eq!(rt; lines.look(ours, 7, 5), Some(cell));
    lines.sweep(12, ours);
    assert_eq!(rt; lines.look(ours, 7, 1), None);
    Ok(())
}
