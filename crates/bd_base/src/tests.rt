//! Numbers, lists and copies of volumes, through the public calls.
use crate::{
    Actor, BlockNo, Fd, FileId, Inode, InodeList, List, Part, Pid, Range, Vba, copy_inodes,
};
use std::test::Fail;

#[test]
fn numbers_come_back(rt: HostRuntime) {
    assert_eq!(rt; Pid::new(15).map(|pid| pid.get()), Some(15));
    assert_eq!(rt; Fd::new(7).map(|fd| fd.get()), Some(7));
    assert_eq!(rt; FileId::new(255).map(|file| file.get()), Some(255));
    assert_eq!(rt; BlockNo::new(16_383).map(|block| block.get()), Some(16_383));
    assert_eq!(rt; Vba::new(32_767).map(|vba| vba.get()), Some(32_767));
    assert_eq!(rt; Actor::new(32).map(|actor| actor.get()), Some(32));
    assert_eq!(rt; Part::new(7).map(|part| part.get()), Some(7));
    assert_eq!(rt; Range::new(4000, 4096).map(|range| range.count()), Some(96));
}

#[test]
fn lists_are_made_and_copied(rt: HostRuntime) -> Result<(), Fail> {
    let alloc = rt.alloc();
    let list = List::from_slice(alloc, &[1u64, 2, 3, 4])?;
    assert_eq!(rt; list.copy()?.as_slice(), [1, 2, 3, 4].as_slice());
    assert_eq!(rt; list.copy_range(1, 3)?.as_slice(), [2, 3].as_slice());
    assert!(rt; list.copy_range(4, 4)?.is_empty());

    let mut roomy = List::with_capacity(alloc, 3)?;
    assert!(rt; roomy.is_empty());
    roomy.push("a word")?;
    assert_eq!(rt; roomy.as_slice(), ["a word"].as_slice());

    let mut fives = List::from_vec(vec![in alloc; 5u16; 2]?);
    assert_eq!(rt; fives.len(), 2);
    assert_eq!(rt;
        (fives.pop(), fives.pop(), fives.pop()),
        (Some(5), Some(5), None)
    );
    Ok(())
}

#[test]
fn files_are_copied(rt: HostRuntime) -> Result<(), Fail> {
    let alloc = rt.alloc();
    let mut blocks = List::new(alloc);
    for number in [3, 7] {
        blocks.push(BlockNo::new(number).ok_or("a block")?)?;
    }
    let mut inodes: InodeList = List::new(alloc);
    inodes.push(None)?;
    inodes.push(Some(Inode {
        name: List::from_slice(alloc, b"a.b")?,
        owner: 100,
        perms: 15,
        size: 5000,
        blocks,
    }))?;
    let copy = copy_inodes(alloc, inodes.as_slice())?;
    let [None, Some(file)] = copy.as_slice() else {
        return Err(Fail::new("other files"));
    };
    for file in [file, &file.copy()?] {
        assert_eq!(rt; file.name.as_slice(), b"a.b".as_slice());
        assert_eq!(rt; (file.owner, file.perms, file.size), (100, 15, 5000));
        assert_eq!(rt; file.blocks.len(), 2);
        assert_eq!(rt;
            file.blocks.as_slice().first().map(|block| block.get()),
            Some(3)
        );
        assert_eq!(rt;
            file.blocks.as_slice().last().map(|block| block.get()),
            Some(7)
        );
    }
    Ok(())
}
