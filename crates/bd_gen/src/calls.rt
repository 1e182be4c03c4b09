//! The calls of a made script.
ghost use Rattle.std.specs.Prelude.{◌≡◌, ◌<◌, IfOk};
ghost use Rattle.bd_gen.specs.Calls.{drawn_byte, drawn_call, drawn_place, early_call, fixed_call, late_call, open_call};

use crate::bytes::repeated;
use crate::volume::{FILES_MADE, file_name};
use bd_base::{BLOCK_SIZE, CALL_BYTES, CALLS, Call, How, Mode, OutOfMemory};
use std::alloc::Global;

/// The call that opens the file of a process. Two processes have one file.
#[tactic(auto, unfolding(crate::specs::Calls::open_call))]
fn open_call(alloc: Global, process: u64, mode: Mode, how: How) -> Result<Call, OutOfMemory>
    ensures { IfOk result (λ call. call ≡ open_call process mode how) }
{
    let name = file_name(alloc, process % FILES_MADE)?;
    Ok(Call::Enter { name, mode, how })
}

/// The fixed call of this number of a process below 8, between its first and its last: it opens its file once more,
/// as a plain one, closes that descriptor, and maps the file again.
#[tactic(auto, using(std::proofs::lemmas::Bool::Decides::nat_tests), unfolding(crate::specs::Calls::early_call))]
fn early_call(alloc: Global, process: u64, call: u64) -> Result<Option<Call>, OutOfMemory>
    ensures { IfOk result (λ fixed. fixed ≡ early_call process call) }
{
    match call {
        100 => Ok(Some(open_call(alloc, process, Mode::R, How::Plain)?)),
        101 => Ok(Some(Call::Close { fd: 1 })),
        102 => Ok(Some(Call::Map { fd: 0 })),
        _ => Ok(None),
    }
}

/// The same of a process from 8 on, which only maps its file again.
#[tactic(auto, using(std::proofs::lemmas::Bool::Decides::nat_tests), unfolding(crate::specs::Calls::late_call))]
fn late_call(call: u64) -> Option<Call>
    ensures { result ≡ late_call call }
{
    match call {
        200 => Some(Call::Map { fd: 0 }),
        _ => None,
    }
}

/// The call of this number of a process, None where it is drawn.
#[tactic(auto, using(std::proofs::lemmas::Bool::Decides::nat_tests), unfolding(crate::specs::Calls::fixed_call))]
pub(crate) fn fixed_call(
    alloc: Global,
    process: u64,
    call: u64,
) -> Result<Option<Call>, OutOfMemory>
    ensures { IfOk result (λ fixed. fixed ≡ fixed_call process call) }
{
    if call == 0 {
        Ok(Some(open_call(alloc, process, Mode::Rw, How::Direct)?))
    } else if call == CALLS - 1 {
        Ok(Some(Call::Close { fd: 0 }))
    } else if process < FILES_MADE {
        early_call(alloc, process, call)
    } else {
        Ok(late_call(call))
    }
}

/// The place in the file that a number says. It is never the first byte of a block, so the bytes from it on lie in
/// five blocks; the last of them is one of the file.
#[tactic(auto, unfolding(crate::specs::Calls::drawn_place))]
fn drawn_place(x: u64) -> u64
    ensures { result ≡ drawn_place x }
{
    let block = (x >> 32) % 1996;
    let byte = 1 + (x >> 16) % (BLOCK_SIZE - 1);
    BLOCK_SIZE * block + byte
}

/// The byte that a number says.
#[tactic(auto, unfolding(crate::specs::Calls::drawn_byte))]
fn drawn_byte(x: u64) -> u8
    ensures { result ≡ drawn_byte x }
{
    ((x >> 8) % 256) as u8
}

/// The call that a number says.
#[tactic(auto, using(std::proofs::lemmas::Bool::Decides::nat_tests), unfolding(crate::specs::Calls::drawn_call))]
pub(crate) fn drawn_call(alloc: Global, x: u64) -> Result<Call, OutOfMemory>
    ensures { IfOk result (λ call. call ≡ drawn_call x) }
{
    let off = drawn_place(x);
    if x >= 1 << 63 {
        Ok(Call::Write {
            fd: 0,
            off,
            bytes: repeated(alloc, CALL_BYTES as usize, drawn_byte(x))?,
        })
    } else {
        Ok(Call::Read {
            fd: 0,
            off,
            len: CALL_BYTES as u16,
        })
    }
}
