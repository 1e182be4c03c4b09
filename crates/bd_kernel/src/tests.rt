//! What calls do and wait for first, where nothing is open, and how far a call is.
ghost use Rattle.std.specs.Prelude.{◌≡◌, ◌≤◌, IfOk, None, replicate};
ghost use Rattle.bd_base.specs.declared.limits.TheConstants.{BLOCKS};
ghost use Rattle.bd_base.specs.Names.{IsName};
ghost use Rattle.bd_base.specs.Scripts.{IsCall};

use crate::{Blocker, Descriptors, KernelCall};
use bd_base::{
    At, Bytes, Call, Fd, FileId, How, InodeList, List, Mode, OutOfMemory, Pid, Range, Reason, Vba,
    Way,
};
use bd_entry::{Act, Entry};
use bd_fs::Fs;
use std::alloc::Global;
use std::process::Abort;
use std::test::Fail;

/// So many ids without a file.
pub(crate) fn free_ids(alloc: Global, count: usize) -> Result<InodeList, OutOfMemory>
    ensures { IfOk result (λ inodes. inodes ≡ replicate count None) }
{
    let mut inodes: InodeList = List::new(alloc);
    for _id in 0..count {
        inodes.push(None)?;
    }
    Ok(inodes)
}

/// A volume of so many blocks with room for sixteen files, and none there.
fn no_files(alloc: Global, total: u32) -> Result<Fs, OutOfMemory>
    requires { total ≤ BLOCKS }
{
    Fs::new(alloc, total, free_ids(alloc, 16)?)
}

/// The next action of a call that has just begun.
fn first_act(rt: &(impl Abort + AllocGlobal), call: &Call) -> Result<Option<Act>, Fail>
    requires { IsCall call.now }
{
    let alloc = rt.alloc();
    let fs = no_files(alloc, 20)?;
    let descriptors = Descriptors::new(alloc, 2)?;
    let process = Pid::new(1).ok_or("a process")?;
    let call = KernelCall::begin(alloc, call, process, 7)?;
    assert!(rt; !call.ended());
    Ok(call.next(&fs, &descriptors))
}

#[test]
fn a_descriptor_that_is_not_open(rt: HostRuntime) -> Result<(), Fail> {
    let refused = first_act(&rt, &Call::Close { fd: 3 })?;
    assert!(rt; matches!(refused, Some(Act::Refuse(None, Reason::BadFd))));
    let refused = first_act(&rt, &Call::Map { fd: 9 })?;
    assert!(rt; matches!(refused, Some(Act::Refuse(None, Reason::BadFd))));
    let refused = first_act(&rt, &Call::Size { fd: 0 })?;
    assert!(rt; matches!(refused, Some(Act::Refuse(None, Reason::BadFd))));
    Ok(())
}

#[test]
fn a_descriptor_that_is_not_open_for_bytes(rt: HostRuntime) -> Result<(), Fail> {
    let read = Call::Read {
        fd: 1,
        off: 0,
        len: 8,
    };
    let refused = first_act(&rt, &read)?;
    assert!(rt; matches!(refused, Some(Act::Refuse(None, Reason::BadFd))));
    let truncate = Call::Truncate {
        fd: 1,
        size: 20_000_000,
    };
    let refused = first_act(&rt, &truncate)?;
    assert!(rt; matches!(refused, Some(Act::Refuse(None, Reason::BadFd))));
    Ok(())
}

#[test]
fn a_raw_command_is_submitted(rt: HostRuntime) -> Result<(), Fail> {
    let vba = Vba::new(5).ok_or("an address")?;
    let range = Range { lo: 0, hi: 8 };
    let act = first_act(&rt, &Call::RawRead { vba, range })?;
    assert!(rt; matches!(act, Some(Act::Submit(0))));
    Ok(())
}

#[test]
fn a_call_ends_once_its_command_is_polled(rt: HostRuntime) -> Result<(), Fail> {
    let alloc = rt.alloc();
    let process = Pid::new(1).ok_or("a process")?;
    let read = Call::Read {
        fd: 1,
        off: 0,
        len: 8,
    };
    let mut call = KernelCall::begin(alloc, &read, process, 7)?;
    call.submitted(0);
    assert_eq!(rt; call.least_outstanding(), 0);
    assert!(rt; !call.finished());
    call.note(&Entry::Access {
        at: At { process, call: 0 },
        piece: 0,
        fd: Fd::new(1).ok_or("a descriptor")?,
        file: FileId::new(0).ok_or("a file")?,
        index: 0,
        block: None,
        range: Range { lo: 0, hi: 8 },
        wrote: false,
        way: Way::Direct,
        bytes: Bytes::new(alloc),
    });
    assert!(rt; call.finished());
    assert!(rt; !call.ended());
    call.polled();
    assert!(rt; call.ended());
    Ok(())
}

/// A volume with the file `a` of user 7, which process 0 holds.
fn held_file(alloc: Global) -> Result<(Fs, Descriptors), Fail> {
    let mut fs = no_files(alloc, 20)?;
    let file = fs.create(List::from_slice(alloc, b"a")?, 7, 15)?;
    let mut descriptors = Descriptors::new(alloc, 2)?;
    descriptors.hold(Pid::new(0).ok_or("a process")?, file);
    Ok((fs, descriptors))
}

/// What a direct open of this file by a process waits for, while process 0 holds `a`.
fn blocker_of_open(alloc: Global, name: &[u8], process: u64) -> Result<Option<Blocker>, Fail>
    requires { IsName name.now }
{
    let (fs, descriptors) = held_file(alloc)?;
    let call = Call::Enter {
        name: List::from_slice(alloc, name)?,
        mode: Mode::R,
        how: How::Direct,
    };
    let process = Pid::new(process).ok_or("a process")?;
    Ok(KernelCall::first_blocker(&fs, &descriptors, &call, process, 7))
}

#[test]
fn an_open_waits_for_the_holder_of_its_file(rt: HostRuntime) -> Result<(), Fail> {
    let file = FileId::new(0).ok_or("a file")?;
    let holder = Pid::new(0).ok_or("a process")?;
    let blocker = blocker_of_open(rt.alloc(), b"a", 1)?;
    assert_eq!(rt; blocker, Some(Blocker::Holder(file, holder)));
    // The holder itself may go on, and a file that is not there is held by nobody.
    assert_eq!(rt; blocker_of_open(rt.alloc(), b"a", 0)?, None);
    assert_eq!(rt; blocker_of_open(rt.alloc(), b"b", 1)?, None);
    Ok(())
}

#[test]
fn a_call_waits_for_its_completion(rt: HostRuntime) -> Result<(), Fail> {
    let fs = no_files(rt.alloc(), 20)?;
    let descriptors = Descriptors::new(rt.alloc(), 2)?;
    let process = Pid::new(1).ok_or("a process")?;
    let read = Call::Read {
        fd: 1,
        off: 0,
        len: 8,
    };
    let mut call = KernelCall::begin(rt.alloc(), &read, process, 7)?;
    assert_eq!(rt; call.blocker(&fs, &descriptors), None);
    call.submitted(0);
    let blocker = call.blocker(&fs, &descriptors);
    assert_eq!(rt; blocker, Some(Blocker::Completion));
    Ok(())
}
