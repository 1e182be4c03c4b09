//! What stands at the place of a call's next entry: its descriptor and its file, and the pieces that are left.
ghost use Rattle.std.specs.Prelude.{◌≡◌, ◌<◌, ◌≤◌, ◌&&◌, [], Some, List, length, not};
ghost use Rattle.std.specs.List.{find};
ghost use Rattle.std.specs.Option.{option_and_then, option_copied, option_map};
ghost use Rattle.bd_base.specs.declared.limits.TheConstants.{FILE_BLOCKS, FILE_SIZE, PARTS};
ghost use Rattle.bd_base.specs.Files.{parts_for};
ghost use Rattle.bd_base.specs.Inodes.{blocks_of_slot, inode_at};
ghost use Rattle.bd_base.specs.Scripts.{IsCall};
ghost use Rattle.bd_entry.specs.declared.entry.Entry.{Entry};
ghost use Rattle.bd_entry.specs.Actions.{piece_numbers};
ghost use Rattle.bd_entry.specs.Calls.{Place, fd_of_call, is_answered, opened_fd};
ghost use Rattle.bd_entry.specs.Refusals.{descriptor_of, file_of, goal_of, goes_direct, is_for_kernel, is_next_for_kernel, kernel_piece, next_size};
ghost use Rattle.bd_entry.specs.Store.{size_at};
ghost use Rattle.bd_fs.specs.Files.{Files};
ghost use Rattle.bd_entry.specs.Store.{Descriptor, Store};
ghost use Rattle.bd_kernel.specs.Changes.{slot_at};
ghost use Rattle.bd_kernel.specs.Sights.{AtPlace};
ghost use Rattle.bd_kernel.specs.Turns.{ArePieceMarksOf};

use crate::calls::{fd_of_call, piece_end, piece_of, pieces_of};
use crate::descriptor::Descriptor;
use crate::running_call::RunningCall;
use crate::table::DescriptorTable;
use bd_base::{BLOCK_SIZE, Call, FileId, How, PART_BLOCKS, Pid};
use bd_fs::Fs;
use bd_pieces::{Piece, goes_direct};

/// Whether a piece goes to the device by this descriptor.
pub fn is_direct(descriptor: &Descriptor, piece: Piece) -> bool
    ensures { result ≡ goes_direct descriptor.now piece }
{
    match descriptor.how {
        How::Plain => false,
        How::Direct => goes_direct(piece, descriptor.known),
    }
}

/// The descriptor of the process's call, where it is open.
pub fn descriptor_of<'a>(
    table: &'a DescriptorTable,
    call: &Call,
    process: Pid,
    running: &RunningCall,
) -> Option<&'a Descriptor>
    ensures { (entries : List Entry) → running.now.opened ≡ opened_fd entries →
        option_copied result ≡ option_and_then (slot_at table.now process) (fd_of_call call.now entries) }
{
    let fd = fd_of_call(call, running.opened())?;
    table.get(process, fd)
}

/// The file of the process's call: the one of its name, or else of its descriptor.
pub fn file_of(
    fs: &Fs,
    table: &DescriptorTable,
    call: &Call,
    process: Pid,
    running: &RunningCall,
) -> Option<FileId>
    ensures { AtPlace fs.now table.now call.now process running.now.opened (λ s p. result ≡ file_of s p) }
{
    match call {
        Call::Enter { name, .. } | Call::Unlink { name } => fs.lookup(name),
        Call::Create { .. }
        | Call::Read { .. }
        | Call::Write { .. }
        | Call::Truncate { .. }
        | Call::Size { .. }
        | Call::Map { .. }
        | Call::Close { .. }
        | Call::RawRead { .. }
        | Call::RawWrite { .. } => file_behind(descriptor_of(table, call, process, running)),
    }
}

/// The file of a descriptor, if there is one.
fn file_behind(descriptor: Option<&Descriptor>) -> Option<FileId>
    ensures { result ≡ option_map (λ (d : Descriptor). d.file) (option_copied descriptor.entry) }
{
    Some(descriptor?.file)
}

/// The number of the first piece of the call that the kernel has yet to do.
pub fn kernel_number(
    table: &DescriptorTable,
    call: &Call,
    process: Pid,
    running: &RunningCall,
) -> Option<u8>
    requires { IsCall call.now }
    ensures { (fs : Files) → AtPlace fs table.now call.now process running.now.opened (λ s p.
        ArePieceMarksOf running.now [] p.before → result ≡ find (is_next_for_kernel s p) (piece_numbers call.now)) }
{
    let pieces = pieces_of(call);
    let descriptor = descriptor_of(table, call, process, running);
    for (number, piece) in pieces.as_slice().iter().enumerate() {
        if is_next_for_kernel(descriptor, running, number as u8, *piece) {
            return Some(number as u8);
        }
    }
    None
}

/// Whether the piece is not answered, and does not go to the device by the descriptor, if that is open, or has its
/// Missed.
fn is_next_for_kernel(
    descriptor: Option<&Descriptor>,
    running: &RunningCall,
    number: u8,
    piece: Piece,
) -> bool
    ensures { (s : Store) (p : Place) → ArePieceMarksOf running.now [] p.before
        → option_copied descriptor.entry ≡ descriptor_of s p
        → result ≡ (not (is_answered number p.before) && is_for_kernel s p number piece) }
{
    if running.is_answered(number) {
        return false;
    }
    running.has_missed(number)
        || match descriptor {
            Some(descriptor) => !is_direct(descriptor, piece),
            None => true,
        }
}

/// The first piece of the call that the kernel has yet to do.
pub fn kernel_piece(
    table: &DescriptorTable,
    call: &Call,
    process: Pid,
    running: &RunningCall,
) -> Option<Piece>
    requires { IsCall call.now }
    ensures { (fs : Files) → AtPlace fs table.now call.now process running.now.opened
        (λ s p. ArePieceMarksOf running.now [] p.before → result ≡ kernel_piece s p) }
{
    let number = kernel_number(table, call, process, running)?;
    piece_of(call, number)
}

/// The size to which the call lets its file grow.
pub fn goal_of(
    table: &DescriptorTable,
    call: &Call,
    process: Pid,
    running: &RunningCall,
) -> Option<u64>
    requires { IsCall call.now }
    ensures { (fs : Files) → AtPlace fs table.now call.now process running.now.opened
        (λ s p. ArePieceMarksOf running.now [] p.before → result ≡ goal_of s p) }
{
    match call {
        Call::Truncate { size, .. } => Some(*size),
        Call::Write { .. } => { Some(piece_end(kernel_piece(table, call, process, running)?)) }
        Call::Enter { .. }
        | Call::Create { .. }
        | Call::Read { .. }
        | Call::Unlink { .. }
        | Call::Size { .. }
        | Call::Map { .. }
        | Call::Close { .. }
        | Call::RawRead { .. }
        | Call::RawWrite { .. } => None,
    }
}

/// The size of a file, 0 where there is none.
pub fn size_of(fs: &Fs, file: FileId) -> u64
    ensures size { result ≡ size_at fs.now.files file }
    ensures in_range { result ≤ FILE_SIZE }
{
    match fs.inode(file) {
        Some(inode) => inode.size,
        None => 0,
    }
}

/// How many blocks a file has, none where there is none.
pub fn block_count(fs: &Fs, file: FileId) -> usize
    ensures count { result ≡ length (blocks_of_slot (inode_at fs.now.files file)) }
    ensures in_range { result ≤ FILE_BLOCKS }
{
    match fs.inode(file) {
        Some(inode) => inode.blocks.len(),
        None => 0,
    }
}

/// How many parts a file has.
pub fn part_count(fs: &Fs, file: FileId) -> u64
    ensures count { result ≡ parts_for (length (blocks_of_slot (inode_at fs.now.files file))) }
    ensures in_range { result ≤ PARTS }
{
    (block_count(fs, file) as u64).div_ceil(PART_BLOCKS)
}

/// The next size of a file on its way to a goal that it has not reached: the goal, or the end of the block that it
/// reaches first.
pub fn next_size(size: u64, goal: u64) -> u64
    requires in_range { size ≤ FILE_SIZE }
    requires larger { size < goal }
    ensures { next_size size goal ≡ Some result }
{
    goal.min(BLOCK_SIZE * (size / BLOCK_SIZE + 1))
}
