//! What the walk of a piece may have found in place of its block.
ghost use Rattle.std.specs.Prelude.{◌≡◌, ◌↔◌, ◌≤◌, [], true};
ghost use Rattle.bd_base.specs.declared.limits.TheConstants.{BLOCK_SIZE};
ghost use Rattle.bd_base.specs.Scripts.{IsCall};
ghost use Rattle.bd_entry.specs.Calls.{does_write};
ghost use Rattle.bd_entry.specs.Refusals.{descriptor_of};
ghost use Rattle.bd_entry.specs.RulesOfRights.{MayFind, MayMiss, Stands, ThePiece, part_of};
ghost use Rattle.bd_entry.specs.Store.{limit_in};
ghost use Rattle.bd_kernel.specs.Sights.{AtPlace, bare};

use crate::calls::{does_write, piece_of};
use crate::descriptor::Descriptor;
use crate::place::descriptor_of;
use crate::running_call::RunningCall;
use crate::table::DescriptorTable;
use bd_base::{BLOCK_SIZE, Call, FileId, Found, Mode, PART_BLOCKS, Pid};
use bd_fs::Fs;
use bd_pieces::Piece;

/// The part of a block of a file.
fn part_of(index: u32) -> u64
    ensures { result ≡ part_of index }
{
    u64::from(index) / PART_BLOCKS
}

/// Whether the right on a part is attached and not cleared.
pub fn stands(descriptor: &Descriptor, part: u64) -> bool
    ensures { (result ≡ true) ↔ Stands part descriptor.now }
{
    descriptor.attached.contains(part) && !descriptor.cleared.contains(part)
}

/// How many bytes of the block of this index belong to the file.
pub fn limit_of(fs: &Fs, file: FileId, index: u32) -> u64
    ensures limit { result ≡ limit_in (bare fs.now []) file index }
    ensures in_block { result ≤ BLOCK_SIZE }
{
    match fs.inode(file) {
        Some(inode) if (index as usize) < inode.blocks.len() => {
            let start = BLOCK_SIZE * u64::from(index);
            BLOCK_SIZE.min(inode.size.saturating_sub(start))
        }
        _ => 0,
    }
}

/// Whether the walk of a piece may have found this by an open descriptor.
fn may_find(fs: &Fs, descriptor: &Descriptor, writes: bool, piece: Piece, found: Found) -> bool
    ensures { (result ≡ true) ↔ MayFind (bare fs.now []) writes descriptor.now piece found }
{
    let part = part_of(piece.index);
    let attached = descriptor.attached.contains(part);
    let allowed = !writes || descriptor.mode == Mode::Rw;
    let start = BLOCK_SIZE * u64::from(piece.index);
    match found {
        Found::NoDirectory => !stands(descriptor, part),
        Found::NoRight => attached && !allowed,
        Found::NoEntry => attached && allowed && descriptor.known <= start,
        Found::Beyond(limit) => {
            attached
                && allowed
                && 1 <= limit
                && limit < piece.range.hi
                && u64::from(limit) <= limit_of(fs, descriptor.file, piece.index)
                && descriptor.known <= start + u64::from(limit)
        }
    }
}

/// Whether the walk of a piece of a process's call may have found this: a right that is not attached or is cleared, or
/// else an entry that is missing or ends before the piece, past the known size.
pub fn may_miss(
    fs: &Fs,
    table: &DescriptorTable,
    call: &Call,
    process: Pid,
    running: &RunningCall,
    number: u8,
    found: Found,
) -> bool
    requires { IsCall call.now }
    ensures { AtPlace fs.now table.now call.now process running.now.opened (λ s p. (result ≡ true)
        ↔ ThePiece p number (MayMiss s (does_write p.call) (descriptor_of s p) found)) }
{
    let Some(piece) = piece_of(call, number) else {
        return false;
    };
    match descriptor_of(table, call, process, running) {
        Some(descriptor) => may_find(fs, descriptor, does_write(call), piece, found),
        None => found == Found::NoDirectory,
    }
}
