//! A queue that is filled and emptied.
use crate::{Full, Inval, Key, POSTS, Post};
use bd_base::{At, Fd, Part, Pid};
use std::test::Fail;

fn post(call: u16) -> Result<Post, Fail> {
    let process = Pid::new(15).ok_or("a process")?;
    let key = Key {
        process,
        fd: Fd::new(7).ok_or("a descriptor")?,
        part: Part::new(0).ok_or("a part")?,
    };
    let by = At { process, call };
    Ok(Post { key, by })
}

#[test]
fn holds_so_many_in_order(rt: HostRuntime) -> Result<(), Fail> {
    let mut inval = Inval::new(rt.alloc())?;
    assert_eq!(rt; inval.front(), None);
    for call in 0..POSTS as u16 {
        assert_eq!(rt; inval.post(post(call)?), Ok(()));
    }
    assert_eq!(rt; inval.post(post(99)?), Err(Full));
    assert_eq!(rt; inval.front(), Some(post(0)?));
    Ok(())
}

#[test]
fn gives_the_oldest_first(rt: HostRuntime) -> Result<(), Fail> {
    let mut inval = Inval::new(rt.alloc())?;
    let (first, second) = (post(3)?, post(1)?);
    assert_eq!(rt; inval.post(first), Ok(()));
    assert_eq!(rt; inval.post(second), Ok(()));
    if inval.front() == Some(first) {
        inval.done();
    }
    assert_eq!(rt; inval.front(), Some(second));
    if inval.front() == Some(second) {
        inval.done();
    }
    assert_eq!(rt; inval.front(), None);
    Ok(())
}
