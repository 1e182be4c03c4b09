//! Why a call, or a piece of it, is refused.
ghost use Rattle.std.specs.Prelude.{◌≡◌, ℕ, Some, []};
ghost use Rattle.std.specs.Option.{option_and_then, option_map};
ghost use Rattle.bd_base.specs.declared.reason.Reason.TheVariants.{Denied, ReadOnly};
ghost use Rattle.bd_base.specs.declared.volume.Inode.{Inode};
ghost use Rattle.bd_base.specs.Inodes.{inode_at};
ghost use Rattle.bd_base.specs.Scripts.{IsCall};
ghost use Rattle.bd_entry.specs.Calls.{named_fd};
ghost use Rattle.bd_entry.specs.Refusals.{denial, first_refusal, growth_reason, growth_reason_of, is_read_only, map_refusal, open_refusal, piece_refusal, reason_if, refusal_of, truncate_refusal, unlink_denial_of, unlink_refusal};
ghost use Rattle.bd_fs.specs.Asks.{denial_of};
ghost use Rattle.bd_kernel.specs.Changes.{Rows};
ghost use Rattle.bd_kernel.specs.Sights.{ForUser, bare, no_files};

use crate::calls::{piece_end, piece_of};
use crate::descriptor::Descriptor;
use crate::place::{file_of, next_size};
use crate::running_call::RunningCall;
use crate::table::DescriptorTable;
use bd_base::{Call, FILE_SIZE, FileId, Mode, Name, Pid, Reason};
use bd_fs::{Ask, Fs, denial};

/// Why this user may not do this with a file.
fn denial_of(fs: &Fs, uid: u32, ask: Ask, file: FileId) -> Option<Reason>
    ensures { result ≡ option_and_then (λ (f : Inode). option_map Denied
        (denial_of ask uid f.owner f.perms)) (inode_at fs.now.files file) }
{
    let inode = fs.inode(file)?;
    let rule = denial(ask, uid, inode.owner, inode.perms)?;
    Some(Reason::Denied(rule))
}

/// Why a process of this user may not open a file in this mode.
pub fn open_denial(fs: &Fs, uid: u32, mode: Mode, file: FileId) -> Option<Reason>
    ensures { (rows : Rows) (process : ℕ) → ForUser fs.now rows process uid
        (λ s. result ≡ denial s process mode file) }
{
    let ask = match mode {
        Mode::R => Ask::Read,
        Mode::Rw => Ask::ReadWrite,
    };
    denial_of(fs, uid, ask, file)
}

/// Why a process of this user may not remove a file.
fn unlink_denial(fs: &Fs, uid: u32, file: FileId) -> Option<Reason>
    ensures { (rows : Rows) (process : ℕ) → ForUser fs.now rows process uid
        (λ s. result ≡ unlink_denial_of s process file) }
{
    denial_of(fs, uid, Ask::Unlink, file)
}

/// Why an open is refused.
fn open_refusal(
    fs: &Fs,
    table: &DescriptorTable,
    process: Pid,
    uid: u32,
    name: &Name,
    mode: Mode,
) -> Option<Reason>
    ensures { ForUser fs.now table.now process uid (λ s. result ≡ open_refusal s process name.now mode) }
{
    let Some(file) = fs.lookup(name) else {
        return Some(Reason::NoFile);
    };
    if let Some(reason) = open_denial(fs, uid, mode, file) {
        return Some(reason);
    }
    match table.lowest_free(process) {
        Some(_) => None,
        None => Some(Reason::FdsFull),
    }
}

/// Why a removal is refused.
fn unlink_refusal(fs: &Fs, table: &DescriptorTable, uid: u32, name: &Name) -> Option<Reason>
    ensures { (process : ℕ) → ForUser fs.now table.now process uid
        (λ s. result ≡ unlink_refusal s process name.now) }
{
    let Some(file) = fs.lookup(name) else {
        return Some(Reason::NoFile);
    };
    if let Some(reason) = unlink_denial(fs, uid, file) {
        return Some(reason);
    }
    let holder = table.first_open(file)?;
    Some(Reason::OpenBy(holder.process, holder.fd))
}

/// Why a map is refused.
fn map_refusal(table: &DescriptorTable, descriptor: &Descriptor) -> Option<Reason>
    ensures { result ≡ map_refusal (bare no_files table.now) descriptor.now }
{
    let holder = table.first_plain(descriptor.file)?;
    Some(Reason::KernelOpen(holder.process))
}

/// Why a call on this descriptor is refused, which is not open or which it uses so.
fn descriptor_refusal(table: &DescriptorTable, process: Pid, call: &Call, fd: u8) -> Option<Reason>
    requires { named_fd call.now ≡ Some fd }
    ensures { result ≡ first_refusal (bare no_files table.now) process call.now }
{
    let Some(descriptor) = table.get(process, fd) else {
        return Some(Reason::BadFd);
    };
    match call {
        Call::Truncate { size, .. } => truncate_refusal(*size, descriptor),
        Call::Map { .. } => map_refusal(table, descriptor),
        Call::Write { .. } => read_only(descriptor),
        Call::Enter { .. }
        | Call::Create { .. }
        | Call::Read { .. }
        | Call::Unlink { .. }
        | Call::Size { .. }
        | Call::Close { .. }
        | Call::RawRead { .. }
        | Call::RawWrite { .. } => None,
    }
}

/// Why the call of a process of this user is refused as it begins.
pub fn first_refusal(
    fs: &Fs,
    table: &DescriptorTable,
    process: Pid,
    uid: u32,
    call: &Call,
) -> Option<Reason>
    ensures { ForUser fs.now table.now process uid (λ s. result ≡ first_refusal s process call.now) }
{
    match call {
        Call::Enter { name, mode, .. } => open_refusal(fs, table, process, uid, name, *mode),
        Call::Create { name, .. } => fs.can_create(name),
        Call::Unlink { name } => unlink_refusal(fs, table, uid, name),
        Call::Truncate { fd, .. }
        | Call::Size { fd }
        | Call::Map { fd }
        | Call::Close { fd }
        | Call::Read { fd, .. }
        | Call::Write { fd, .. } => descriptor_refusal(table, process, call, *fd),
        Call::RawRead { .. } | Call::RawWrite { .. } => None,
    }
}

/// Why a file does not grow towards a goal.
pub fn growth_reason(fs: &Fs, file: FileId, goal: u64) -> Option<Reason>
    ensures { result ≡ growth_reason (bare fs.now []) file goal }
{
    let size = fs.inode(file)?.size;
    if goal <= size {
        return None;
    }
    if goal > FILE_SIZE {
        return Some(Reason::TooBig);
    }
    fs.can_grow(file, next_size(size, goal))
}

/// That the descriptor may only read, where it may.
fn read_only(descriptor: &Descriptor) -> Option<Reason>
    ensures { result ≡ reason_if (is_read_only descriptor.now.mode) ReadOnly }
{
    match descriptor.mode {
        Mode::R => Some(Reason::ReadOnly),
        Mode::Rw => None,
    }
}

/// Why a truncation is refused before it grows its file.
fn truncate_refusal(size: u64, descriptor: &Descriptor) -> Option<Reason>
    ensures { result ≡ truncate_refusal size descriptor.now }
{
    if let Some(reason) = read_only(descriptor) {
        return Some(reason);
    }
    if size > FILE_SIZE {
        Some(Reason::TooBig)
    } else {
        None
    }
}
