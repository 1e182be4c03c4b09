//! The actions of calls on files: opens, maps, truncations and removals.
ghost use Rattle.std.specs.Prelude.{◌≡◌, ℕ, [], Some};
ghost use Rattle.std.specs.Option.{option_map, option_map_or};
ghost use Rattle.bd_entry.specs.declared.act.Act.TheVariants as acts;
ghost use Rattle.bd_entry.specs.Actions.{attach_by, attach_or_map, is_to_shrink, open_file, remove_file, truncate_to};
ghost use Rattle.bd_entry.specs.Refusals.{file_of, growth_reason, next_size};
ghost use Rattle.bd_entry.specs.Calls.{Place, fd_of};
ghost use Rattle.bd_entry.specs.Store.{descriptor_at, size_at, size_in};
ghost use Rattle.bd_kernel.specs.Changes.{Rows};
ghost use Rattle.bd_kernel.specs.Sights.{AtPlace, InStore, bare};

use crate::calls::fd_of_call;
use crate::descriptor::Descriptor;
use crate::place::{block_count, file_of, next_size, size_of};
use crate::refusals::growth_reason;
use crate::rights::next_part;
use crate::running_call::RunningCall;
use crate::table::DescriptorTable;
use bd_base::{BLOCK_SIZE, Call, FileId, Pid};
use bd_entry::Act;
use bd_fs::Fs;

/// A right is attached, as long as one can be, and then it is told how many there are.
fn attach_or_map(fs: &Fs, table: &DescriptorTable, descriptor: &Descriptor) -> Act
    ensures { result ≡ attach_or_map (bare fs.now table.now) descriptor.now }
{
    match next_part(fs, table, descriptor) {
        Some(part) => Act::Attach(part),
        None => Act::Mapped(descriptor.attached.count() as u8),
    }
}

/// The same by this descriptor of a process.
pub fn attach_by(fs: &Fs, table: &DescriptorTable, process: Pid, fd: u8) -> Option<Act>
    ensures { result ≡ option_map (attach_or_map (bare fs.now table.now))
        (descriptor_at (bare fs.now table.now) process fd) }
{
    let descriptor = table.get(process, fd)?;
    Some(attach_or_map(fs, table, descriptor))
}

/// An open begins, with the lowest free descriptor.
pub fn open_file(
    fs: &Fs,
    table: &DescriptorTable,
    call: &Call,
    process: Pid,
    running: &RunningCall,
) -> Option<Act>
    ensures { AtPlace fs.now table.now call.now process running.now.opened (λ s p. result ≡ open_file s p) }
{
    let file = file_of(fs, table, call, process, running)?;
    let fd = table.lowest_free(process)?;
    Some(Act::Opened(file, fd))
}

/// A file grows towards a goal, or it, or the piece of this number, is refused; nothing where it is there.
pub fn grow(fs: &Fs, file: FileId, goal: u64, piece: Option<u8>) -> Option<Act>
    ensures { result ≡ option_map
        (λ to. option_map_or (acts.Refuse piece) (growth_reason (bare fs.now []) file goal) (acts.Extend file to))
        (next_size (size_at fs.now.files file) goal) }
{
    let size = size_of(fs, file);
    if size >= goal {
        return None;
    }
    match growth_reason(fs, file, goal) {
        Some(reason) => Some(Act::Refuse(piece, reason)),
        None => Some(Act::Extend(file, next_size(size, goal))),
    }
}

/// Whether the file has a block more than this size needs, and is larger.
fn is_to_shrink(fs: &Fs, file: FileId, size: u64) -> bool
    ensures { result ≡ is_to_shrink (bare fs.now []) file size }
{
    size < size_of(fs, file) && size.div_ceil(BLOCK_SIZE) < block_count(fs, file) as u64
}

/// A truncation of this file, whose rights are revoked: down to the blocks that its size needs, or up to its size, and
/// then its end.
fn truncate_file(fs: &Fs, file: FileId, size: u64) -> Act
    ensures { (rows : Rows) → InStore fs.now rows (λ s. (p : Place) → file_of s p ≡ Some file
        → result ≡ truncate_to s p size file) }
{
    if is_to_shrink(fs, file, size) {
        return Act::Release(file);
    }
    match grow(fs, file, size, None) {
        Some(act) => act,
        None => Act::Sized(size),
    }
}

/// The next action of a truncation to this size.
pub fn truncate(
    fs: &Fs,
    table: &DescriptorTable,
    call: &Call,
    process: Pid,
    running: &RunningCall,
    size: u64,
) -> Option<Act>
    ensures { AtPlace fs.now table.now call.now process running.now.opened
        (λ s p. result ≡ option_map (truncate_to s p size) (file_of s p)) }
{
    let file = file_of(fs, table, call, process, running)?;
    Some(truncate_file(fs, file, size))
}

/// A removal: each block, and then the file.
fn remove_file(fs: &Fs, file: FileId) -> Act
    ensures { result ≡ remove_file (bare fs.now []) file }
{
    if block_count(fs, file) == 0 {
        Act::Unlinked
    } else {
        Act::Release(file)
    }
}

/// The next action of a removal.
pub fn unlink(
    fs: &Fs,
    table: &DescriptorTable,
    call: &Call,
    process: Pid,
    running: &RunningCall,
) -> Option<Act>
    ensures { AtPlace fs.now table.now call.now process running.now.opened
        (λ s p. result ≡ option_map (remove_file s) (file_of s p)) }
{
    let file = file_of(fs, table, call, process, running)?;
    Some(remove_file(fs, file))
}

/// The size of the call's file is told.
pub fn tell_size(
    fs: &Fs,
    table: &DescriptorTable,
    call: &Call,
    process: Pid,
    running: &RunningCall,
) -> Option<Act>
    ensures { AtPlace fs.now table.now call.now process running.now.opened
        (λ s p. result ≡ option_map (λ file. acts.SizeRead (size_in s file)) (file_of s p)) }
{
    let file = file_of(fs, table, call, process, running)?;
    Some(Act::SizeRead(size_of(fs, file)))
}

/// A direct open begins, or attaches a right, or tells how many there are.
pub fn open_directly(
    fs: &Fs,
    table: &DescriptorTable,
    call: &Call,
    process: Pid,
    running: &RunningCall,
) -> Option<Act>
    ensures { AtPlace fs.now table.now call.now process running.now.opened
        (λ s p. result ≡ option_map_or (attach_by s p) (fd_of p) (open_file s p)) }
{
    match fd_of_call(call, running.opened()) {
        Some(fd) => attach_by(fs, table, process, fd),
        None => open_file(fs, table, call, process, running),
    }
}
