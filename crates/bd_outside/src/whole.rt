//! Reading a source to its end, and writing all of some bytes.
ghost use Rattle.std.specs.Prelude.{◌≡◌, ◌⊎◌, ℕ, ◌+◌, ◌<◌, ◌≤◌, List, [], length, vec_len, IfOk, OnOk, OnErr, IsErrOf, IsOk};
ghost use Rattle.std.specs.Io.KnownBytes.{Consumes, IsAtEnd};
ghost use Rattle.bd_outside.specs.Around.{GaveUp, Left, ReadAll, ReadAtMost, ReadFailed, ReadPast, reading};
ghost use Rattle.bd_outside.specs.Around.{WriteFailed, Wrote, WrotePrefix, writing};
ghost use Rattle.bd_outside.specs.Source.{bytes_got, IfGot, OnEnd, OnFailedRead};
ghost use Rattle.bd_outside.specs.declared.whole.ReadError.TheVariants.{OutOfMemory as read_out_of_memory};

use crate::sinks::{Sink, Took};
use crate::sources::{Got, Source};
use bd_base::{Bytes, List};
use std::alloc::{AllocError, Global};
use thiserror::Error;

/// Why a source was not read to its end.
#[derive(Clone, Copy, Debug, PartialEq, Eq, Error)]
pub enum ReadError {
    /// A read failed. It comes only where the source's count of faults rose.
    #[error("a read failed")]
    Fault,
    /// There are more bytes than the limit.
    #[error("there is more to read than the limit")]
    TooLong,
    /// No memory was found.
    #[error("out of memory")]
    OutOfMemory,
}

impl From<AllocError> for ReadError {
    ghost from_gives = { λ _ e. e ≡ read_out_of_memory };

    fn from(_error: AllocError) -> ReadError {
        ReadError::OutOfMemory
    }
}

/// Why not all bytes were written. Those that were are the first of them.
#[derive(Clone, Copy, Debug, PartialEq, Eq, Error)]
pub enum WriteError {
    /// A write failed. It comes only where the sink's count of faults rose.
    #[error("a write failed")]
    Fault,
    /// The sink found no memory.
    #[error("out of memory")]
    OutOfMemory,
}

// How many bytes one read may give.
const PIECE: usize = 65_536;

// Room for one read.
fn room_for_piece(alloc: Global) -> Result<Vec<u8>, AllocError>
    ensures { IfOk result (λ room. 0 < vec_len room) }
{
    vec![in alloc; 0u8; PIECE]
}

/// Reads a source to its end, where it has at most `limit` bytes left.
///
/// A longer source is read for `limit` + 1 bytes, and the answer is `TooLong`. What was read before
/// an error is lost. Where no read fails and memory is found, the number of bytes decides alone.
pub fn read_all<S: Source>(alloc: Global, source: &mut S, limit: usize) -> Result<Bytes, ReadError>
    ensures all { IfOk result (ReadAll (reading S.Source source.old source.new)) }
    ensures within { IfOk result (λ bytes. length bytes ≤ limit) }
    ensures too_long { IsErrOf result ReadError.TooLong → (bytes : List ℕ) ×
        ReadPast limit (reading S.Source source.old source.new) bytes }
    ensures fault { IsErrOf result ReadError.Fault →
        ReadFailed (reading S.Source source.old source.new) }
    ensures short { Left (reading S.Source source.old source.new) (λ bytes. length bytes ≤ limit) →
        IsOk result ⊎ GaveUp result }
    ensures long { Left (reading S.Source source.old source.new) (λ bytes. limit < length bytes) →
        IsErrOf result ReadError.TooLong ⊎ GaveUp result }
    ensures taken { ReadAtMost (limit + 1) (reading S.Source source.old source.new) }
    ensures faults { S.faults source.old ≤ S.faults source.new }
{
    let mut room = room_for_piece(alloc)?;
    let buf = room.as_mut_slice();
    let mut bytes = Vec::new(alloc);
    loop {
        let spare = limit - bytes.len();
        match read_some(source, buf, spare) {
            Got::Bytes(n) if n <= spare => bytes.extend_from_slice(&buf[..n])?,
            Got::Bytes(_) => return Err(ReadError::TooLong),
            Got::End => return Ok(List::from_vec(bytes)),
            Got::Failed => return Err(ReadError::Fault),
        }
    }
}

// One read, of at most one byte more than `spare`.
fn read_some<S: Source>(source: &mut S, buf: &mut [u8], spare: usize) -> Got
    requires { 0 < length buf.old }
    ensures in_buffer { IfGot result (λ n. (1 ≤ n) × (n ≤ length buf.new)) }
    ensures few { IfGot result (λ n. n ≤ spare + 1) }
    ensures taken { Consumes (S.left source.old) (S.left source.new) (bytes_got result buf.new) }
    ensures end { OnEnd result (IsAtEnd (S.left source.old)) }
    ensures failed { OnFailedRead result (ReadFailed (reading S.Source source.old source.new)) }
    ensures faults { S.faults source.old ≤ S.faults source.new }
{
    if spare < buf.len() {
        source.read(&mut buf[..spare + 1])
    } else {
        source.read(buf)
    }
}

/// Appends all of `bytes` to a sink. After an error the first of them were appended.
pub fn write_all<K: Sink>(sink: &mut K, bytes: &[u8]) -> Result<(), WriteError>
    ensures ok { OnOk result (Wrote (writing K.Sink sink.old sink.new) bytes.now) }
    ensures err { OnErr result (WrotePrefix (writing K.Sink sink.old sink.new) bytes.now) }
    ensures fault { IsErrOf result WriteError.Fault →
        WriteFailed (writing K.Sink sink.old sink.new) }
    ensures faults { K.faults sink.old ≤ K.faults sink.new }
    ensures none { bytes.now ≡ [] → IsOk result × (sink.new ≡ sink.old) }
{
    let mut done = 0;
    while done < bytes.len() {
        match sink.write(&bytes[done..]) {
            Took::Bytes(n) => done += n,
            Took::Failed => return Err(WriteError::Fault),
            Took::OutOfMemory => return Err(WriteError::OutOfMemory),
        }
    }
    Ok(())
}
