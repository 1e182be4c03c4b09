//! The entries of the actions of processors, and of the moves of device engines.
ghost use Rattle.std.specs.Prelude.{◌≡◌, ℕ, ◌-◌, ◌*◌, ◌<◌, ◌≤◌, min, slice_get, IfOk, IsSome, Some};
ghost use Rattle.std.specs.Option.{IsSomeAnd};
ghost use Rattle.bd_base.specs.declared.limits.TheConstants.{BLOCK_SIZE, DESCRIPTORS};
ghost use Rattle.bd_entry.specs.declared.act.Act.TheVariants.{Access as Accesses, Created, Release, Unlinked};
ghost use Rattle.bd_entry.specs.Actions.{opened_entry};
ghost use Rattle.bd_entry.specs.Calls.{Place, fd_of};
ghost use Rattle.bd_entry.specs.RulesOfContents.{bytes_within};
ghost use Rattle.bd_machine.specs.Turns.{AddedAt, IsEntryOf};
ghost use Rattle.bd_medium.specs.Contents.{HasBlock};

use bd_base::{
    At, BLOCK_SIZE, BlockNo, Bytes, Call, Fd, FileId, Inode, List, OutOfMemory, Range, Way,
};
use bd_entry::{Act, Entry};
use bd_kernel::{Disk, bytes_for_piece, does_write, piece_of};
use bd_medium::Medium;
use bd_pieces::Piece;
use std::alloc::Global;

/// The number of an open descriptor.
fn number(fd: Option<u8>) -> Fd
    requires { IsSomeAnd fd (λ n. n < DESCRIPTORS) }
    ensures { fd ≡ Some result }
{
    Fd::new(u64::from(fd.unwrap())).unwrap()
}

/// The entry that an action adds, by the call at this place.
pub(crate) fn entry_of_act<M: Medium>(
    alloc: Global,
    disk: &Disk<M>,
    call: &Call,
    at: At,
    fd: Option<u8>,
    act: &Act,
) -> Result<Entry, OutOfMemory>
    ghost g: { AddedAt }
    requires { IsEntryOf disk.now call.now at fd act.now g }
    ensures { IfOk result (λ entry. entry ≡ g.entry) }
{
    Ok(match act {
        Act::Refuse(piece, reason) => Entry::Refused {
            at,
            piece: *piece,
            reason: *reason,
        },
        Act::Opened(file, fd) => opened_entry(call, at, *file, *fd),
        Act::Created => created_entry(disk, call, at)?,
        Act::Attach(part) => Entry::Attached {
            at,
            fd: number(fd),
            part: *part,
        },
        Act::Mapped(count) => Entry::Mapped {
            at,
            fd: number(fd),
            count: *count,
        },
        Act::Extend(file, to) => Entry::Extended {
            at,
            file: *file,
            to: *to,
            block: disk.fs().next_block(*file),
        },
        Act::Release(file) => released_entry(disk, at, *file),
        Act::Access(piece, way) => access_entry(alloc, disk, call, at, number(fd), *piece, *way)?,
        Act::Sized(size) => Entry::Sized {
            at,
            fd: number(fd),
            size: *size,
        },
        Act::SizeRead(size) => Entry::SizeRead {
            at,
            fd: number(fd),
            size: *size,
        },
        Act::Closed => Entry::Closed { at, fd: number(fd) },
        Act::Unlinked => unlinked_entry(disk, call, at),
        Act::Busy(..) | Act::Revoke(_) | Act::Submit(_) | Act::Poll => unreachable!(),
    })
}

/// The entry of an open.
fn opened_entry(call: &Call, at: At, file: FileId, fd: Fd) -> Entry
    ghost p: { Place }
    requires at { p.at ≡ at }
    requires opens { IsSome (opened_entry p call.now file fd) }
    ensures { opened_entry p call.now file fd ≡ Some result }
{
    match call {
        Call::Enter { mode, how, .. } => Entry::Opened {
            at,
            file,
            fd,
            mode: *mode,
            how: *how,
        },
        _ => unreachable!(),
    }
}

/// The entry of a create.
fn created_entry<M: Medium>(disk: &Disk<M>, call: &Call, at: At) -> Result<Entry, OutOfMemory>
    ghost g: { AddedAt }
    requires { IsEntryOf disk.now call.now at (fd_of g.place) Created g }
    ensures { IfOk result (λ entry. entry ≡ g.entry) }
{
    match call {
        Call::Create { name, perms } => Ok(Entry::Created {
            at,
            file: disk.fs().free_id().unwrap(),
            name: name.copy()?,
            perms: *perms,
        }),
        _ => unreachable!(),
    }
}

/// The entry of the release of a file's last block.
fn released_entry<M: Medium>(disk: &Disk<M>, at: At, file: FileId) -> Entry
    ghost g: { AddedAt }
    requires { IsEntryOf disk.now g.place.call at (fd_of g.place) (Release file) g }
    ensures { result ≡ g.entry }
{
    let blocks = disk.fs().inode(file).unwrap().blocks.as_slice();
    let index = blocks.len() - 1;
    Entry::Released {
        at,
        file,
        index: index as u32,
        block: blocks[index],
    }
}

/// The entry of the removal of a file.
fn unlinked_entry<M: Medium>(disk: &Disk<M>, call: &Call, at: At) -> Entry
    ghost g: { AddedAt }
    requires { IsEntryOf disk.now call.now at (fd_of g.place) Unlinked g }
    ensures { result ≡ g.entry }
{
    match call {
        Call::Unlink { name } => Entry::Unlinked {
            at,
            file: disk.fs().lookup(name).unwrap(),
        },
        _ => unreachable!(),
    }
}

/// The entry of an access of the kernel.
fn access_entry<M: Medium>(
    alloc: Global,
    disk: &Disk<M>,
    call: &Call,
    at: At,
    fd: Fd,
    piece: u8,
    way: Way,
) -> Result<Entry, OutOfMemory>
    ghost g: { AddedAt }
    requires { IsEntryOf disk.now call.now at (Some fd) (Accesses piece way) g }
    ensures { IfOk result (λ entry. entry ≡ g.entry) }
{
    let cut = piece_of(call, piece).unwrap();
    let file = disk
        .descriptors()
        .get(at.process, fd.get() as u8)
        .unwrap()
        .file;
    let inode = disk.fs().inode(file).unwrap();
    let bytes = if does_write(call) {
        List::from_slice(alloc, bytes_for_piece(call, cut))?
    } else {
        bytes_read(alloc, disk, block_at(inode, cut.index), cut, inode.size)?
    };
    Ok(Entry::Access {
        at,
        piece,
        fd,
        file,
        index: cut.index,
        block: block_at(inode, cut.index),
        range: cut.range,
        wrote: does_write(call),
        way,
        bytes,
    })
}

/// The block of a file at this index, if it has one there.
fn block_at(inode: &Inode, index: u32) -> Option<BlockNo>
    ensures { result ≡ slice_get inode.now.blocks index }
{
    inode.blocks.as_slice().get(index as usize).copied()
}

/// The bytes of a piece as far as the file goes; none where it has no such block.
fn bytes_read<M: Medium>(
    alloc: Global,
    disk: &Disk<M>,
    block: Option<BlockNo>,
    cut: Piece,
    size: u64,
) -> Result<Bytes, OutOfMemory>
    requires there { (number : ℕ) → block ≡ Some number → HasBlock disk.now.bytes number }
    requires within { (number : ℕ) → block ≡ Some number → BLOCK_SIZE * cut.index ≤ size }
    ensures { IfOk result (λ bytes. bytes ≡ bytes_within disk.now.bytes block cut.range
        (min BLOCK_SIZE (size - BLOCK_SIZE * cut.index))) }
{
    let Some(block) = block else {
        return Ok(List::new(alloc));
    };
    let limit = (size - BLOCK_SIZE * u64::from(cut.index)).min(BLOCK_SIZE);
    let hi = limit.min(u64::from(cut.range.hi));
    match Range::new(u64::from(cut.range.lo), hi) {
        Some(within) => disk.read(block, within),
        None => Ok(List::new(alloc)),
    }
}
