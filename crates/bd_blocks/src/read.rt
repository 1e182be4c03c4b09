//! Reading bytes that are written as runs.
ghost use Rattle.std.specs.Prelude.{◌≡◌, ◌≢◌, ℕ, ◌<◌, ◌≤◌, [], IfOk, OnOk, IfSome, IfNone, IsErrOf, IsOkUnless, length};
ghost use Rattle.bd_base.specs.Bytes.{AreBytes};
ghost use Rattle.bd_blocks.specs.Runs.{AreNoRuns, AreRunsOfMore, AreRunsUpTo, hex_digit, runs_text};
ghost use Rattle.bd_blocks.specs.Reading.{Fills, HasRoom, IsErrUnlessMemory, IsNoNextRun, IsNoRun, IsRunText, TakesItem};

use crate::text::{Number, read_number, split_at_byte};
use bd_base::{Bytes, List};
use std::alloc::{AllocError, Global};

/// Why a text was not read as runs.
#[derive(Clone, Copy, Debug, PartialEq, Eq)]
pub enum RunsError {
    /// The text is the runs of no list of bytes.
    NotRuns,
    /// The text is the runs of more bytes than may be read, however many.
    TooMany,
    /// No memory was found.
    OutOfMemory,
}

impl From<AllocError> for RunsError {
    ghost use Rattle.std.specs.Prelude.{◌≡◌};
    ghost use Rattle.bd_blocks.specs.declared.read.RunsError.TheVariants.{OutOfMemory};

    ghost from_gives = { λ _ e. e ≡ OutOfMemory };

    fn from(_error: AllocError) -> RunsError {
        RunsError::OutOfMemory
    }
}

/// How many bytes more may be read.
#[derive(Clone, Copy, Debug, PartialEq, Eq)]
pub enum Room {
    /// So many.
    Left(usize),
    /// There were more already.
    Passed,
}

/// How far runs were read.
#[derive(Clone, Copy, Debug, PartialEq, Eq)]
pub struct Progress {
    /// The byte of the run before, if there is one.
    pub prior: Option<u8>,
    pub room: Room,
}

// A run that was read.
#[derive(Clone, Copy)]
struct RunRead {
    byte: u8,
    count: Number,
}

/// Reads the bytes of which a text is the runs, where they are at most `most`.
///
/// `NotRuns` comes exactly where the text is the runs of no list of bytes, and `TooMany` exactly
/// where it is the runs of more, unless no memory is found. A count of any length is a number. No
/// more than `most` bytes are made.
pub fn read_runs(alloc: Global, text: &[u8], most: usize) -> Result<Bytes, RunsError>
    ensures spelled { IfOk result (λ bytes. runs_text bytes ≡ text.now) }
    ensures within { IfOk result (λ bytes. length bytes ≤ most) }
    ensures bytes { IfOk result AreBytes }
    ensures not_runs { IsErrOf result RunsError.NotRuns → AreNoRuns text.now }
    ensures too_many { IsErrOf result RunsError.TooMany → AreRunsOfMore most text.now }

    // The other way round.
    ensures runs { AreRunsUpTo most text.now → IsOkUnless result RunsError.OutOfMemory }
    ensures no_runs { AreNoRuns text.now → IsErrUnlessMemory result RunsError.NotRuns }
    ensures more { AreRunsOfMore most text.now → IsErrUnlessMemory result RunsError.TooMany }
{
    let mut bytes = Vec::new(alloc);
    read_into(&mut bytes, text, most)?;
    are_bytes(bytes.as_slice());
    Ok(List::from_vec(bytes))
}

// Each item of a slice of bytes is a byte. The call does nothing: its contract is the fact.
fn are_bytes(bytes: &[u8])
    ensures { AreBytes bytes.now }
{}

// Appends the bytes of which a text is the runs.
fn read_into(bytes: &mut Vec<u8>, text: &[u8], most: usize) -> Result<(), RunsError>
    requires { bytes.old.items ≡ [] }
    ensures spelled { OnOk result (runs_text bytes.new.items ≡ text.now) }
    ensures within { OnOk result (length bytes.new.items ≤ most) }
    ensures not_runs { IsErrOf result RunsError.NotRuns → AreNoRuns text.now }
    ensures too_many { IsErrOf result RunsError.TooMany → AreRunsOfMore most text.now }
{
    if text == b"-".as_slice() {
        return Ok(());
    }
    let mut progress = Progress {
        prior: None,
        room: Room::Left(most),
    };
    let mut rest = text;
    while let Some((item, next)) = split_at_byte(rest, b',') {
        progress = take_item(bytes, progress, item)?;
        rest = next;
    }
    match take_item(bytes, progress, rest)?.room {
        Room::Left(_) => Ok(()),
        Room::Passed => Err(RunsError::TooMany),
    }
}

// Reads one item, and appends its bytes while there is room.
fn take_item(bytes: &mut Vec<u8>, progress: Progress, item: &[u8]) -> Result<Progress, RunsError>
    requires { HasRoom (length bytes.old.items) progress.room }
    ensures ok { IfOk result (TakesItem bytes.old.items bytes.new.items progress item.now) }
    ensures not_runs { IsErrOf result RunsError.NotRuns → IsNoNextRun progress.prior item.now }
    ensures never_many { IsErrOf result RunsError.TooMany → ⊥ }
{
    let Some(run) = read_run(item) else {
        return Err(RunsError::NotRuns);
    };
    if progress.prior == Some(run.byte) {
        return Err(RunsError::NotRuns);
    }
    let room = append_run(bytes, progress.room, run.byte, run.count)?;
    Ok(Progress {
        prior: Some(run.byte),
        room,
    })
}

// Appends a run while there is room, and answers the room that is left.
fn append_run(bytes: &mut Vec<u8>, room: Room, byte: u8, count: Number) -> Result<Room, RunsError>
    requires { HasRoom (length bytes.old.items) room }
    ensures ok { IfOk result (Fills bytes.old.items bytes.new.items room byte count) }
    ensures only_memory { IsErrOf result RunsError.NotRuns → ⊥ }
    ensures never_many { IsErrOf result RunsError.TooMany → ⊥ }
{
    let (Room::Left(room), Number::Small(count)) = (room, count) else {
        return Ok(Room::Passed);
    };
    let count = count as usize;
    let Some(left) = room.checked_sub(count) else {
        return Ok(Room::Passed);
    };
    bytes.resize(bytes.len() + count, byte)?;
    Ok(Room::Left(left))
}

// The run that a text is.
fn read_run(text: &[u8]) -> Option<RunRead>
    ensures some { IfSome result (λ run. IsRunText text.now run.byte run.count) }
    ensures none { IfNone result (IsNoRun text.now) }
{
    let [high, low, b'*', digits @ ..] = text else {
        return None;
    };
    let byte = hex_value(*high)? * 16 + hex_value(*low)?;
    let count = read_number(digits)?;
    if count == Number::Small(0) {
        return None;
    }
    Some(RunRead { byte, count })
}

// The value of an upper-case hexadecimal digit.
fn hex_value(digit: u8) -> Option<u8>
    ensures some { IfSome result (λ v. (v < 16) × (hex_digit v ≡ digit)) }
    ensures none { IfNone result ((v : ℕ) → v < 16 → hex_digit v ≢ digit) }
{
    match digit {
        b'0'..=b'9' => Some(digit - b'0'),
        b'A'..=b'F' => Some(digit - b'A' + 10),
        _ => None,
    }
}
