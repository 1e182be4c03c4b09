//! A disk whose bytes change, and of whose files one is held.
ghost use Rattle.std.specs.Prelude.{◌≡◌, IfOk, None, replicate};

use crate::Disk;
use crate::tests::free_ids;
use bd_base::{At, BlockNo, Bytes, Fd, FileId, OutOfMemory, Pid, Range, Way};
use bd_entry::Entry;
use bd_medium::{Medium, Plain};
use std::alloc::Global;
use std::test::Fail;

/// A disk of twenty blocks, all of whose bytes are 0x55, with room for sixteen files, and two processes.
fn empty_disk(alloc: Global) -> Result<Disk<Plain>, OutOfMemory>
    ensures { IfOk result (λ d. d.held ≡ replicate 2 None) }
{
    let bytes = vec![in alloc; 0x55; 81_920]?;
    let medium = Plain::new(Bytes::from_vec(bytes));
    let disk = Disk::new(alloc, 20, free_ids(alloc, 16)?, medium, 2)?;
    Ok(disk)
}

/// Bytes are written into the range of a block, which is there.
fn write<M: Medium>(
    disk: &mut Disk<M>,
    at: At,
    block: BlockNo,
    range: Range,
    bytes: Bytes,
) -> Result<(), Fail> {
    if block.get() >= u64::from(disk.medium().total()) {
        return Err("a block".into());
    }
    if bytes.len() != range.count() {
        return Err("as many bytes as the range has".into());
    }
    let entry = Entry::Access {
        at,
        piece: 0,
        fd: Fd::new(0).ok_or("a descriptor")?,
        file: FileId::new(0).ok_or("a file")?,
        index: 0,
        block: Some(block),
        range,
        wrote: true,
        way: Way::Plain,
        bytes,
    };
    disk.change(&entry, 0)?;
    Ok(())
}

/// The bytes of the range of a block.
fn read<M: Medium>(disk: &Disk<M>, block: BlockNo, range: Range) -> Result<Bytes, Fail> {
    if block.get() >= u64::from(disk.medium().total()) {
        return Err("a block".into());
    }
    Ok(disk.read(block, range)?)
}

/// The first call of the second process.
fn first_call() -> Result<At, Fail> {
    let process = Pid::new(1).ok_or("a process")?;
    Ok(At { process, call: 0 })
}

#[test]
fn bytes_are_written_in_their_place(rt: HostRuntime) -> Result<(), Fail> {
    let alloc = rt.alloc();
    let mut disk = empty_disk(alloc)?;
    let at = first_call()?;
    let block = BlockNo::new(3).ok_or("a block")?;
    let new = Bytes::from_slice(alloc, &[1, 2])?;
    write(&mut disk, at, block, Range { lo: 4, hi: 6 }, new)?;
    let bytes = read(&disk, block, Range { lo: 3, hi: 8 })?;
    assert_eq!(rt; bytes.as_slice(), [0x55, 1, 2, 0x55, 0x55].as_slice());
    Ok(())
}

#[test]
fn a_process_holds_a_file(rt: HostRuntime) -> Result<(), Fail> {
    let mut disk = empty_disk(rt.alloc())?;
    let process = Pid::new(1).ok_or("a process")?;
    let file = FileId::new(5).ok_or("a file")?;
    disk.hold(process, file);
    assert!(rt; disk.descriptors().holder(file) == Some(process));
    disk.give_up(process);
    assert!(rt; disk.descriptors().holder(file).is_none());
    Ok(())
}
