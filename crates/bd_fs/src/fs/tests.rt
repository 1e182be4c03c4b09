//! Files that are made, asked for, grown and shrunk, through the public calls.
ghost use Rattle.std.specs.Prelude.{◌≡◌, ◌<◌, ◌≤◌, IfOk, IsSome, None, length, replicate};
ghost use Rattle.bd_base.specs.declared.limits.TheConstants.{BLOCKS, FILE_SIZE};
ghost use Rattle.bd_base.specs.Inodes.{existing_file, inode_at};

use super::Fs;
use crate::errors::{CreateError, GrowError};
use crate::policy::{Ask, May};
use bd_base::{BlockNo, FILE_SIZE, FileId, InodeList, List, Name, OutOfMemory, Reason};
use std::alloc::Global;
use std::process::Abort;
use std::test::Fail;

/// `count` ids without a file.
fn free_ids(alloc: Global, count: usize) -> Result<InodeList, OutOfMemory>
    ensures { IfOk result (λ inodes. inodes ≡ replicate count None) }
{
    let mut inodes: InodeList = List::new(alloc);
    for _id in 0..count {
        inodes.push(None)?;
    }
    Ok(inodes)
}

/// A volume of `total` blocks with room for sixteen files, and none there.
fn no_files(alloc: Global, total: u32) -> Result<Fs, OutOfMemory>
    requires { total ≤ BLOCKS }
{
    Fs::new(alloc, total, free_ids(alloc, 16)?)
}

fn name(alloc: Global, bytes: &[u8]) -> Result<Name, OutOfMemory> {
    let mut name = List::new(alloc);
    for byte in bytes {
        name.push(*byte)?;
    }
    Ok(name)
}

/// The size of a file that exists.
fn file_size(rt: &impl Abort, fs: &Fs, file: FileId) -> u64
    ensures exists { IsSome (inode_at fs.now.files file) }
    ensures size { result ≡ (existing_file fs.now.files file).size }
    ensures in_range { result ≤ FILE_SIZE }
{
    let inode = fs.inode(file).expect(rt, "the file exists");
    assert!(rt; inode.size <= FILE_SIZE);
    inode.size
}

/// Lets a file of whole blocks grow by one, and expects this answer.
fn grow(rt: &impl Abort, fs: &mut Fs, number: u64, want: Result<Option<BlockNo>, GrowError>) {
    let size = file_size(rt, fs, id(rt, number));
    grow_to(rt, fs, number, size.wrapping_add(4096), want);
}

/// Lets a file grow to `to` bytes, within one block, and expects this answer.
fn grow_to(
    rt: &impl Abort,
    fs: &mut Fs,
    number: u64,
    to: u64,
    want: Result<Option<BlockNo>, GrowError>,
) {
    let file = id(rt, number);
    let growing = file;
    let size = file_size(rt, fs, file);
    assert!(rt; size < to && to <= 4096 * (size / 4096 + 1));
    assert_eq!(rt; fs.grow_one(growing, to), want);
}

/// Expects this reason why a file of whole blocks does not grow by one.
fn refuses(rt: &impl Abort, fs: &Fs, number: u64, want: Option<Reason>) {
    let file = id(rt, number);
    let growing = file;
    let size = file_size(rt, fs, file);
    assert!(rt; size % 4096 == 0);
    assert_eq!(rt; fs.can_grow(growing, size + 4096), want);
}

/// Takes the last block of a file that has one away, and expects this block.
fn shrink(rt: &impl Abort, fs: &mut Fs, number: u64, want: u64) {
    let file = id(rt, number);
    let shrinking = file;
    let blocks = fs.inode(file).expect(rt, "the file exists").blocks.len();
    assert!(rt; 0 < blocks);
    assert_eq!(rt; fs.drop_last(shrinking).get(), want);
}

/// Gives a file a size for which it has as many blocks as needed.
fn resize(rt: &impl Abort, fs: &mut Fs, number: u64, size: u64) {
    let file = id(rt, number);
    let resized = file;
    let blocks = fs.inode(file).expect(rt, "the file exists").blocks.len();
    assert!(rt; size <= FILE_SIZE);
    assert!(rt; blocks as u64 == (size + 4095) / 4096);
    fs.set_size(resized, size);
}

/// Expects this size of a file.
fn has_size(rt: &impl Abort, fs: &Fs, number: u64, want: u64) {
    assert_eq!(rt; file_size(rt, fs, id(rt, number)), want);
}

/// Takes a file without blocks away.
fn take_away(rt: &impl Abort, fs: &mut Fs, number: u64) {
    let file = id(rt, number);
    let removed = file;
    let is_empty = fs
        .inode(file)
        .expect(rt, "the file exists")
        .blocks
        .is_empty();
    assert!(rt; is_empty);
    fs.remove(removed);
}

/// Makes a file of user 1, and expects this id.
fn create(
    rt: &(impl Abort + AllocGlobal),
    fs: &mut Fs,
    bytes: &[u8],
    want: u64,
) -> Result<(), Fail> {
    let file = fs.create(name(rt.alloc(), bytes)?, 1, 15)?;
    assert_eq!(rt; file.get(), want);
    Ok(())
}

/// Expects that no file of this name is made.
fn makes_none(
    rt: &(impl Abort + AllocGlobal),
    fs: &mut Fs,
    bytes: &[u8],
    error: CreateError,
    reason: Reason,
) -> Result<(), Fail> {
    let refused = fs.can_create(&name(rt.alloc(), bytes)?);
    assert_eq!(rt; refused, Some(reason));
    let made = fs.create(name(rt.alloc(), bytes)?, 1, 15);
    assert_eq!(rt; made, Err(error));
    Ok(())
}

/// Expects the file of this name at this id.
fn finds(
    rt: &(impl Abort + AllocGlobal),
    fs: &Fs,
    bytes: &[u8],
    want: Option<FileId>,
) -> Result<(), Fail> {
    let found = fs.lookup(&name(rt.alloc(), bytes)?);
    assert_eq!(rt; found, want);
    Ok(())
}

/// Expects this answer of the policy about a file.
fn answers(rt: &impl Abort, fs: &Fs, uid: u32, number: u64, ask: Ask, want: May) {
    let file = id(rt, number);
    let asked = file;
    file_size(rt, fs, file);
    assert_eq!(rt; fs.may(uid, asked, ask), want);
}

/// The id with this number.
fn id(rt: &impl Abort, number: u64) -> FileId {
    FileId::new(number).expect(rt, "an id")
}

/// The answers on a file with these perms: to its owner who asks to read, and to read and write, and to another.
#[derive(Clone, Copy)]
struct PolicyRow {
    perms: u8,
    owner: (May, May),
    other: (May, May),
}

/// Makes the file of a row, of user 7, and asks for all answers.
fn check_row(rt: &(impl Abort + AllocGlobal), fs: &mut Fs, row: PolicyRow) -> Result<(), Fail> {
    let file = fs
        .create(name(rt.alloc(), &[row.perms])?, 7, row.perms)?
        .get();
    answers(rt, fs, 7, file, Ask::Read, row.owner.0);
    answers(rt, fs, 7, file, Ask::ReadWrite, row.owner.1);
    answers(rt, fs, 7, file, Ask::Unlink, May::Yes);
    answers(rt, fs, 8, file, Ask::Read, row.other.0);
    answers(rt, fs, 8, file, Ask::ReadWrite, row.other.1);
    answers(rt, fs, 8, file, Ask::Unlink, May::No(5));
    Ok(())
}

const NO_OWNER_READ: (May, May) = (May::No(1), May::No(1));

const NO_OWNER_WRITE: (May, May) = (May::Yes, May::No(2));

const NO_OTHER_READ: (May, May) = (May::No(3), May::No(3));

const NO_OTHER_WRITE: (May, May) = (May::Yes, May::No(4));

const ALL: (May, May) = (May::Yes, May::Yes);

const POLICY: [PolicyRow; 16] = [
    PolicyRow {
        perms: 0,
        owner: NO_OWNER_READ,
        other: NO_OTHER_READ,
    },
    PolicyRow {
        perms: 1,
        owner: NO_OWNER_WRITE,
        other: NO_OTHER_READ,
    },
    PolicyRow {
        perms: 2,
        owner: NO_OWNER_READ,
        other: NO_OTHER_READ,
    },
    PolicyRow {
        perms: 3,
        owner: ALL,
        other: NO_OTHER_READ,
    },
    PolicyRow {
        perms: 4,
        owner: NO_OWNER_READ,
        other: NO_OTHER_WRITE,
    },
    PolicyRow {
        perms: 5,
        owner: NO_OWNER_WRITE,
        other: NO_OTHER_WRITE,
    },
    PolicyRow {
        perms: 6,
        owner: NO_OWNER_READ,
        other: NO_OTHER_WRITE,
    },
    PolicyRow {
        perms: 7,
        owner: ALL,
        other: NO_OTHER_WRITE,
    },
    PolicyRow {
        perms: 8,
        owner: NO_OWNER_READ,
        other: NO_OTHER_READ,
    },
    PolicyRow {
        perms: 9,
        owner: NO_OWNER_WRITE,
        other: NO_OTHER_READ,
    },
    PolicyRow {
        perms: 10,
        owner: NO_OWNER_READ,
        other: NO_OTHER_READ,
    },
    PolicyRow {
        perms: 11,
        owner: ALL,
        other: NO_OTHER_READ,
    },
    PolicyRow {
        perms: 12,
        owner: NO_OWNER_READ,
        other: ALL,
    },
    PolicyRow {
        perms: 13,
        owner: NO_OWNER_WRITE,
        other: ALL,
    },
    PolicyRow {
        perms: 14,
        owner: NO_OWNER_READ,
        other: ALL,
    },
    PolicyRow {
        perms: 15,
        owner: ALL,
        other: ALL,
    },
];

#[test]
fn policy_denies_by_the_least_rule(rt: HostRuntime) -> Result<(), Fail> {
    let mut fs = no_files(rt.alloc(), 20)?;
    for row in &POLICY {
        check_row(&rt, &mut fs, *row)?;
    }
    Ok(())
}

#[test]
fn makes_files_with_the_lowest_free_id(rt: HostRuntime) -> Result<(), Fail> {
    let mut fs = no_files(rt.alloc(), 20)?;
    for number in 0..16u8 {
        create(&rt, &mut fs, &[number], u64::from(number))?;
    }
    makes_none(&rt, &mut fs, b"q", CreateError::Inodes, Reason::Inodes)?;
    makes_none(&rt, &mut fs, &[2], CreateError::Exists, Reason::Exists)?;
    finds(&rt, &fs, &[5], FileId::new(5))?;
    take_away(&rt, &mut fs, 5);
    take_away(&rt, &mut fs, 2);
    finds(&rt, &fs, &[5], None)?;
    create(&rt, &mut fs, &[5], 2)?;
    finds(&rt, &fs, &[5], FileId::new(2))?;
    Ok(())
}

#[test]
fn grows_to_24_extents(rt: HostRuntime) -> Result<(), Fail> {
    let mut fs = no_files(rt.alloc(), 100)?;
    create(&rt, &mut fs, b"first", 0)?;
    create(&rt, &mut fs, b"second", 1)?;
    // The two take blocks in turn from 3 on, so each block begins an extent.
    for turn in 0..24u64 {
        grow(&rt, &mut fs, 0, Ok(BlockNo::new(2 * turn + 3)));
        grow(&rt, &mut fs, 1, Ok(BlockNo::new(2 * turn + 4)));
    }
    refuses(&rt, &fs, 0, Some(Reason::Extents));
    grow(&rt, &mut fs, 0, Err(GrowError::Extents));
    // The block after the last one of the first file adjoins it.
    shrink(&rt, &mut fs, 1, 50);
    refuses(&rt, &fs, 0, None);
    grow(&rt, &mut fs, 0, Ok(BlockNo::new(50)));
    grow(&rt, &mut fs, 0, Ok(BlockNo::new(51)));
    Ok(())
}

#[test]
fn grows_to_the_last_free_block(rt: HostRuntime) -> Result<(), Fail> {
    let mut fs = no_files(rt.alloc(), 20)?;
    create(&rt, &mut fs, b"all", 0)?;
    for block in 3..20u64 {
        grow(&rt, &mut fs, 0, Ok(BlockNo::new(block)));
    }
    refuses(&rt, &fs, 0, Some(Reason::NoSpace));
    grow(&rt, &mut fs, 0, Err(GrowError::NoSpace));
    has_size(&rt, &fs, 0, 17 * 4096);
    Ok(())
}

#[test]
fn grows_to_the_largest_size(rt: HostRuntime) -> Result<(), Fail> {
    let mut fs = no_files(rt.alloc(), 16_384)?;
    create(&rt, &mut fs, b"large", 0)?;
    for block in 3..4099u64 {
        grow(&rt, &mut fs, 0, Ok(BlockNo::new(block)));
    }
    has_size(&rt, &fs, 0, 16_777_216);
    refuses(&rt, &fs, 0, Some(Reason::TooBig));
    grow(&rt, &mut fs, 0, Err(GrowError::TooBig));
    Ok(())
}

#[test]
fn shrinks_to_nothing_and_grows_again(rt: HostRuntime) -> Result<(), Fail> {
    let mut fs = no_files(rt.alloc(), 20)?;
    create(&rt, &mut fs, b"f", 0)?;
    for _round in 0..2u8 {
        for block in 3..20u64 {
            grow(&rt, &mut fs, 0, Ok(BlockNo::new(block)));
        }
        for left in 0..17u64 {
            shrink(&rt, &mut fs, 0, 19 - left);
            has_size(&rt, &fs, 0, 4096 * (16 - left));
        }
    }
    take_away(&rt, &mut fs, 0);
    Ok(())
}

#[test]
fn grows_within_its_last_block(rt: HostRuntime) -> Result<(), Fail> {
    let mut fs = no_files(rt.alloc(), 20)?;
    create(&rt, &mut fs, b"f", 0)?;
    grow_to(&rt, &mut fs, 0, 1, Ok(BlockNo::new(3)));
    grow_to(&rt, &mut fs, 0, 4096, Ok(None));
    grow_to(&rt, &mut fs, 0, 4097, Ok(BlockNo::new(4)));
    resize(&rt, &mut fs, 0, 8000);
    has_size(&rt, &fs, 0, 8000);
    Ok(())
}
