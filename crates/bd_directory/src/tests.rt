//! Rights and counts of a key and its neighbours.
use crate::{Directory, Key};
use bd_base::{Fd, Found, Part, Pid};
use std::test::Fail;

fn key(process: u64, fd: u64, part: u64) -> Result<Key, Fail> {
    Ok(Key {
        process: Pid::new(process).ok_or("a process")?,
        fd: Fd::new(fd).ok_or("a descriptor")?,
        part: Part::new(part).ok_or("a part")?,
    })
}

#[test]
fn the_count_rises_though_no_right_is_there(rt: HostRuntime) -> Result<(), Fail> {
    let mut directory = Directory::new(rt.alloc())?;
    let ours = key(15, 7, 7)?;
    assert_eq!(rt; directory.enter(ours, false), Err(Found::NoDirectory));
    assert_eq!(rt; directory.count(ours), 1);
    assert_eq!(rt; directory.count(key(15, 7, 6)?), 0);
    assert_eq!(rt; directory.count(key(0, 0, 0)?), 0);
    Ok(())
}
