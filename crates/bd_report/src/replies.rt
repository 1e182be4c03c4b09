//! Writing replies.
ghost use Rattle.std.specs.Prelude.{◌≡◌, ◌++◌, IfOk, List, OnOk, length, map, take, true};
ghost use Rattle.std.specs.Option.{option_copied};
ghost use Rattle.bd_base.specs.Scripts.{IsCall};
ghost use Rattle.bd_blocks.specs.Texts.{number_text};
ghost use Rattle.bd_entry.specs.Calls.{pieces_of_call};
ghost use Rattle.bd_entry.specs.declared.entry.Entry.{Entry};
ghost use Rattle.bd_pieces.specs.Gathered.{gathered_bytes};
ghost use Rattle.bd_pieces.specs.declared.piece_list.TheConstants.{MOST_PIECES};
ghost use Rattle.bd_report.specs.Replies.{call_text, end_text, first_reason, given_bytes, mapped_text, ok_text, parts_of, piece_reason, pieces_text, read_text};
ghost use Rattle.bd_report.specs.Notes.{IsOfEnded, AreNotesOf, ends_by_pieces};

use crate::notes::Notes;
use bd_base::{Call, OutOfMemory, Reason};
use bd_blocks::push_runs;
use bd_blocks::text::{push_bytes, push_field, push_number, push_number_field};
use bd_entry::{Entry, push_found, push_reason};
use bd_pieces::{Piece, pieces};
use std::alloc::Global;

/// Appends `ok` and a number.
fn push_ok_number(text: &mut Vec<u8>, number: u64) -> Result<(), OutOfMemory>
    ensures { OnOk result (text.new.items ≡ text.old.items ++ ok_text (number_text number)) }
{
    push_field(text, b"ok")?;
    push_number(text, number)
}

/// Appends how many parts are attached.
fn push_mapped(text: &mut Vec<u8>, count: u8) -> Result<(), OutOfMemory>
    ensures { OnOk result (text.new.items ≡ text.old.items ++ mapped_text count) }
{
    push_field(text, b"mapped")?;
    push_number(text, u64::from(count))
}

/// Appends the reply of a call that read these bytes.
fn push_read(text: &mut Vec<u8>, bytes: &[u8]) -> Result<(), OutOfMemory>
    ensures { OnOk result (text.new.items ≡ text.old.items ++ read_text bytes.now) }
{
    push_field(text, b"ok")?;
    push_number_field(text, bytes.len() as u64)?;
    push_runs(text, bytes)
}

/// Appends the reply of a call that this entry ends.
fn push_end(text: &mut Vec<u8>, call: &Call, end: &Entry) -> Result<(), OutOfMemory>
    ensures { OnOk result (text.new.items ≡ text.old.items ++ end_text call.now end.now) }
{
    match (end, call) {
        (Entry::Refused { reason, .. }, _) => push_reason(text, *reason),
        (Entry::Opened { fd, .. }, _) => push_ok_number(text, fd.get()),
        (Entry::Mapped { count, .. }, Call::Map { .. }) => {
            push_field(text, b"ok")?;
            push_mapped(text, *count)
        }
        (Entry::Mapped { fd, count, .. }, _) => {
            push_field(text, b"ok")?;
            push_number_field(text, fd.get())?;
            push_mapped(text, *count)
        }
        (Entry::SizeRead { size, .. }, _) => push_ok_number(text, *size),
        (Entry::Missed { found, .. }, _) => {
            push_field(text, b"fault")?;
            push_found(text, *found)
        }
        (Entry::Access { .. }, Call::RawWrite { bytes, .. }) => {
            push_ok_number(text, bytes.len() as u64)
        }
        (Entry::Access { bytes, .. }, _) => push_read(text, bytes.as_slice()),
        _ => push_bytes(text, b"ok"),
    }
}

/// The bytes of an access.
fn given_bytes<'a>(answer: Option<&'a Entry>) -> &'a [u8]
    ensures { result.now ≡ given_bytes (option_copied answer.entry) }
{
    match answer {
        Some(Entry::Access { bytes, .. }) => bytes.as_slice(),
        _ => &[],
    }
}

/// The bytes that the pieces of a read gave, up to and with the first piece that gave fewer than asked.
fn bytes_read(
    alloc: Global,
    cut: &[Piece],
    answers: &[Option<&Entry>],
) -> Result<Vec<u8>, OutOfMemory>
    requires { length cut.now ≡ length answers.now }
    ensures { IfOk result (λ bytes. bytes.items
        ≡ gathered_bytes (parts_of cut.now (map option_copied answers.now))) }
{
    let mut bytes = Vec::new(alloc);
    for (number, piece) in cut.iter().enumerate() {
        let given = given_bytes(answers[number]);
        bytes.extend_from_slice(given)?;
        if given.len() < piece.range.count() {
            break;
        }
    }
    Ok(bytes)
}

/// Why a piece was refused.
fn piece_reason(answer: Option<&Entry>) -> Option<Reason>
    ensures { result ≡ piece_reason (option_copied answer.entry) }
{
    match answer {
        Some(Entry::Refused { reason, .. }) => Some(*reason),
        _ => None,
    }
}

/// Why the first of the pieces that were refused was.
fn first_reason(answers: &[Option<&Entry>]) -> Option<Reason>
    ensures { result ≡ first_reason (map option_copied answers.now) }
{
    for answer in answers {
        let reason = piece_reason(*answer);
        if reason.is_some() {
            return reason;
        }
    }
    None
}

/// Appends the reply of a read or a write by the answers of its pieces.
fn push_pieces(
    text: &mut Vec<u8>,
    call: &Call,
    answers: &[Option<&Entry>],
) -> Result<(), OutOfMemory>
    requires limits { IsCall call.now }
    requires by_pieces { ends_by_pieces call.now ≡ true }
    requires room { length answers.now ≡ MOST_PIECES }
    ensures { let notes = take (length (pieces_of_call call.now)) answers.now in OnOk result
        (text.new.items ≡ text.old.items ++ pieces_text call.now (map option_copied notes)) }
{
    match call {
        Call::Read { off, len, .. } => {
            let cut = pieces(*off, u64::from(*len));
            let cut = cut.as_slice();
            let bytes = bytes_read(*text.allocator(), cut, &answers[..cut.len()])?;
            push_read(text, bytes.as_slice())
        }
        Call::Write { off, bytes, .. } => {
            let cut = pieces(*off, bytes.len() as u64);
            match first_reason(&answers[..cut.as_slice().len()]) {
                Some(reason) => push_reason(text, reason),
                None => push_ok_number(text, bytes.len() as u64),
            }
        }
        _ => unreachable!(),
    }
}

/// Appends the reply of a call that is finished.
pub(crate) fn push_reply(text: &mut Vec<u8>, call: &Call, notes: &Notes) -> Result<(), OutOfMemory>
    requires limits { IsCall call.now }
    requires ended { IsOfEnded call.now notes.now }
    ensures { (entries : List Entry) → AreNotesOf call.now entries notes.now →
        OnOk result (text.new.items ≡ text.old.items ++ call_text call.now entries) }
{
    match notes.end {
        Some(end) => push_end(text, call, end),
        None => push_pieces(text, call, &notes.answers),
    }
}
