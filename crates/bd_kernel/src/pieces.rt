//! The actions on pieces of reads, writes and raw commands.
ghost use Rattle.std.specs.Prelude.{◌≡◌, ◌<◌, ℕ, ◌&&◌, [], None, Some, length};
ghost use Rattle.std.specs.List.{find};
ghost use Rattle.std.specs.Option.{option_and_then, option_copied, option_map, option_map_or, option_or};
ghost use Rattle.bd_base.specs.Scripts.{IsCall};
ghost use Rattle.bd_entry.specs.declared.act.Act.TheVariants as acts;
ghost use Rattle.bd_entry.specs.Actions.{access_piece, is_for_device, is_untouched, kernel_part, kernel_way, move_piece, piece_numbers, submit_or_poll, write_piece};
ghost use Rattle.bd_entry.specs.Calls.{Place, piece_of_call};
ghost use Rattle.bd_entry.specs.Refusals.{descriptor_of, file_of};
ghost use Rattle.bd_entry.specs.Store.{Store};
ghost use Rattle.bd_fs.specs.Files.{Files};
ghost use Rattle.bd_kernel.specs.Blockers.{act_for_device};
ghost use Rattle.bd_kernel.specs.declared.pieces.DeviceAct.TheVariants.{Poll as Polls};
ghost use Rattle.bd_kernel.specs.Holders.{holder_in};
ghost use Rattle.bd_kernel.specs.Changes.{Rows};
ghost use Rattle.bd_kernel.specs.Sights.{AtPlace, InStore};
ghost use Rattle.bd_kernel.specs.Turns.{ArePieceMarksOf, is_among, may_submit};

use crate::beginning::busy;
use crate::calls::{does_write, is_raw, piece_end, piece_of, pieces_of};
use crate::descriptor::Descriptor;
use crate::descriptors::Descriptors;
use crate::files::grow;
use crate::place::{descriptor_of, is_direct, kernel_number};
use crate::running_call::RunningCall;
use crate::table::DescriptorTable;
use bd_base::{Call, How, Pid, Way};
use bd_entry::Act;
use bd_fs::Fs;
use bd_pieces::Piece;

/// Whether the number is among these.
fn is_among(number: u8, numbers: &[u8]) -> bool
    ensures { result ≡ is_among number numbers.now }
{
    numbers.iter().any(|other| number == *other)
}

/// Whether the piece of this number is not answered, has not missed, and no command of it is outstanding.
fn is_untouched(running: &RunningCall, outstanding: &[u8], number: u8) -> bool
    ensures { (place : Place) → ArePieceMarksOf running.now outstanding.now place.before
        → result ≡ is_untouched (record { place = place; outstanding = outstanding.now }) number }
{
    !is_among(number, outstanding) && !running.is_answered(number) && !running.has_missed(number)
}

/// Whether a piece of the call goes to the device, by this descriptor of it, if that is open.
fn is_for_device(call: &Call, descriptor: Option<&Descriptor>, piece: Piece) -> bool
    ensures { (s : Store) (p : Place) (number : ℕ) → p.call ≡ call.now
        → option_copied descriptor.entry ≡ descriptor_of s p → piece_of_call call.now number ≡ Some piece
        → result ≡ is_for_device s p number }
{
    is_raw(call)
        || match descriptor {
            Some(descriptor) => is_direct(descriptor, piece),
            None => false,
        }
}

/// Whether the piece of this number is to be submitted: it goes to the device, and is untouched.
fn may_submit(
    call: &Call,
    descriptor: Option<&Descriptor>,
    running: &RunningCall,
    outstanding: &[u8],
    number: u8,
    piece: Piece,
) -> bool
    ensures { (s : Store) (p : Place) → p.call ≡ call.now → option_copied descriptor.entry ≡ descriptor_of s p
        → piece_of_call call.now number ≡ Some piece → ArePieceMarksOf running.now outstanding.now p.before
        → result ≡ may_submit s (record { place = p; outstanding = outstanding.now }) number }
{
    is_for_device(call, descriptor, piece) && is_untouched(running, outstanding, number)
}

/// The number of the first piece for the device that is untouched.
fn piece_to_submit(
    table: &DescriptorTable,
    call: &Call,
    process: Pid,
    running: &RunningCall,
    outstanding: &[u8],
) -> Option<u8>
    requires { IsCall call.now }
    ensures { (fs : Files) → AtPlace fs table.now call.now process running.now.opened
        (λ s p. ArePieceMarksOf running.now outstanding.now p.before → result
        ≡ find (may_submit s (record { place = p; outstanding = outstanding.now })) (piece_numbers p.call)) }
{
    let pieces = pieces_of(call);
    let descriptor = descriptor_of(table, call, process, running);
    for (number, piece) in pieces.as_slice().iter().enumerate() {
        if may_submit(call, descriptor, running, outstanding, number as u8, *piece) {
            return Some(number as u8);
        }
    }
    None
}

/// What the processor does about the pieces that go to the device.
pub enum DeviceAct {
    /// The command of this piece is submitted.
    Submit(u8),
    /// A completion is taken.
    Poll,
}

impl DeviceAct {
    /// The same as an action of the call.
    pub fn act(self) -> Act
        ensures { result ≡ act_for_device self }
    {
        match self {
            DeviceAct::Submit(piece) => Act::Submit(piece),
            DeviceAct::Poll => Act::Poll,
        }
    }
}

/// Pieces are submitted in order, and then their completions taken.
pub fn submit_or_poll(
    table: &DescriptorTable,
    call: &Call,
    process: Pid,
    running: &RunningCall,
    outstanding: &[u8],
) -> Option<DeviceAct>
    requires { IsCall call.now }
    ensures act { (fs : Files) → AtPlace fs table.now call.now process running.now.opened
        (λ s p. ArePieceMarksOf running.now outstanding.now p.before → option_map act_for_device result
        ≡ submit_or_poll s (record { place = p; outstanding = outstanding.now })) }
    ensures outstanding { result ≡ Some Polls → 0 < length outstanding.now }
{
    if let Some(number) = piece_to_submit(table, call, process, running, outstanding) {
        return Some(DeviceAct::Submit(number));
    }
    if outstanding.is_empty() {
        None
    } else {
        Some(DeviceAct::Poll)
    }
}

/// How the kernel reaches a piece of a descriptor.
fn kernel_way(how: How, missed: bool) -> Way
    ensures { result ≡ kernel_way how missed }
{
    match (how, missed) {
        (How::Plain, _) => Way::Plain,
        (How::Direct, true) => Way::AfterMiss,
        (How::Direct, false) => Way::PastKnown,
    }
}

/// The kernel accesses a piece.
fn access_piece(running: &RunningCall, number: u8, descriptor: &Descriptor) -> Act
    ensures { (p : Place) → ArePieceMarksOf running.now [] p.before
        → result ≡ access_piece p number descriptor.now }
{
    let missed = running.has_missed(number);
    Act::Access(number, kernel_way(descriptor.how, missed))
}

/// The kernel writes a piece after the file has grown to its end, or refuses it where the file cannot.
fn write_piece(
    fs: &Fs,
    running: &RunningCall,
    number: u8,
    piece: Piece,
    descriptor: &Descriptor,
) -> Act
    ensures { (rows : Rows) → InStore fs.now rows (λ s. (p : Place) → ArePieceMarksOf running.now [] p.before
        → file_of s p ≡ Some descriptor.now.file → result ≡ write_piece s p number piece descriptor.now) }
{
    match grow(fs, descriptor.file, piece_end(piece), Some(number)) {
        Some(act) => act,
        None => access_piece(running, number, descriptor),
    }
}

/// The kernel reads or writes a piece of this descriptor of the call.
fn move_piece(
    fs: &Fs,
    call: &Call,
    running: &RunningCall,
    number: u8,
    piece: Piece,
    descriptor: &Descriptor,
) -> Act
    ensures { (rows : Rows) → InStore fs.now rows (λ s. (p : Place) → p.call ≡ call.now
        → ArePieceMarksOf running.now [] p.before → descriptor_of s p ≡ Some descriptor.now
        → result ≡ move_piece s p number piece descriptor.now) }
{
    if does_write(call) {
        write_piece(fs, running, number, piece, descriptor)
    } else {
        access_piece(running, number, descriptor)
    }
}

/// The kernel does the first piece that is left for it, once no other process holds the file.
pub fn kernel_part(
    fs: &Fs,
    descriptors: &Descriptors,
    call: &Call,
    process: Pid,
    running: &RunningCall,
) -> Option<Act>
    requires { IsCall call.now }
    ensures { AtPlace fs.now descriptors.now.rows call.now process running.now.opened
        (λ s p. ArePieceMarksOf running.now [] p.before
        → result ≡ kernel_part s (holder_in descriptors.now.held) p) }
{
    let table = descriptors.table();
    let number = kernel_number(table, call, process, running)?;
    if let Some((file, holder)) = busy(fs, descriptors, call, process, running) {
        return Some(Act::Busy(file, holder));
    }
    let piece = piece_of(call, number)?;
    let descriptor = descriptor_of(table, call, process, running)?;
    Some(move_piece(fs, call, running, number, piece, descriptor))
}
