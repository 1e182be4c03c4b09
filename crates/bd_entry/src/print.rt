//! Writing a journal as text.
ghost use Rattle.std.specs.Prelude.{◌≡◌, ◌++◌, [], IfOk, OnOk};
ghost use Rattle.bd_blocks.specs.Texts.{before, number_text, optional_text};
ghost use Rattle.bd_blocks.specs.Words.{direction_text, way_text};
ghost use Rattle.bd_entry.specs.Texts.{entry_text, fields_text, journal_text, last_text, leading_text, place_text};

mod reasons;

use crate::entry::{Entry, at_of};
pub use crate::print::reasons::{push_found, push_reason};
use crate::words::{word_bytes, word_of};
use bd_base::{BlockNo, Bytes, List, OutOfMemory, Range, Way};
use bd_blocks::push_runs;
use bd_blocks::text::{
    LF, direction_word, push_bytes, push_field, push_mode_and_how, push_number, push_number_field,
    way_word,
};
use std::alloc::Global;

// Appends a block's number, or `-`.
fn push_block(text: &mut Vec<u8>, block: Option<BlockNo>) -> Result<(), OutOfMemory>
    ensures { OnOk result (text.new.items ≡ text.old.items ++ optional_text block) }
{
    match block {
        Some(block) => push_number(text, block.get()),
        None => push_bytes(text, b"-"),
    }
}

// Appends a piece's number, or `-`, and the space after it.
fn push_piece(text: &mut Vec<u8>, piece: Option<u8>) -> Result<(), OutOfMemory>
    ensures { OnOk result (text.new.items ≡ text.old.items ++ before (optional_text piece) []) }
{
    match piece {
        Some(piece) => push_number_field(text, u64::from(piece)),
        None => push_field(text, b"-"),
    }
}

// Appends two numbers, each with the space after it.
fn push_two_fields(text: &mut Vec<u8>, a: u64, b: u64) -> Result<(), OutOfMemory>
    ensures { let fields = before (number_text a) (before (number_text b) []) in
        OnOk result (text.new.items ≡ text.old.items ++ fields) }
{
    push_number_field(text, a)?;
    push_number_field(text, b)
}

// Appends where an access went, the index, the block and the range, and the space after it.
fn push_place(
    text: &mut Vec<u8>,
    index: u32,
    block: Option<BlockNo>,
    range: Range,
) -> Result<(), OutOfMemory>
    ensures { let fields = before (place_text index block range) [] in
        OnOk result (text.new.items ≡ text.old.items ++ fields) }
{
    push_number_field(text, u64::from(index))?;
    push_block(text, block)?;
    push_bytes(text, b" ")?;
    push_two_fields(text, u64::from(range.lo), u64::from(range.hi))
}

// Appends what an access did and which way it went, each with the space after it.
fn push_done(text: &mut Vec<u8>, wrote: bool, way: Way) -> Result<(), OutOfMemory>
    ensures { let fields = before (direction_text wrote) (before (way_text way) []) in
        OnOk result (text.new.items ≡ text.old.items ++ fields) }
{
    push_field(text, direction_word(wrote))?;
    push_field(text, way_word(way))
}

// Appends the fields of an entry before its last, each with the space after it.
fn push_leading(text: &mut Vec<u8>, entry: &Entry) -> Result<(), OutOfMemory>
    ensures { OnOk result (text.new.items ≡ text.old.items ++ leading_text entry.now) }
{
    match entry {
        Entry::Opened { file, fd, .. } => push_two_fields(text, file.get(), fd.get()),
        Entry::Created { file, name, .. } => {
            push_number_field(text, file.get())?;
            push_field(text, name.as_slice())
        }
        Entry::Attached { fd, .. }
        | Entry::Mapped { fd, .. }
        | Entry::Sized { fd, .. }
        | Entry::SizeRead { fd, .. } => push_number_field(text, fd.get()),
        Entry::Cleared { owner, fd, .. } | Entry::Detached { owner, fd, .. } => {
            push_two_fields(text, owner.get(), fd.get())
        }
        Entry::Access {
            piece,
            fd,
            file,
            index,
            block,
            range,
            wrote,
            way,
            ..
        } => {
            push_two_fields(text, u64::from(*piece), fd.get())?;
            push_number_field(text, file.get())?;
            push_place(text, *index, *block, *range)?;
            push_done(text, *wrote, *way)
        }
        Entry::Missed { piece, .. } => push_number_field(text, u64::from(*piece)),
        Entry::Extended { file, to, .. } => push_two_fields(text, file.get(), *to),
        Entry::Released { file, index, .. } => push_two_fields(text, file.get(), u64::from(*index)),
        Entry::Refused { piece, .. } => push_piece(text, *piece),
        Entry::Closed { .. } | Entry::Unlinked { .. } => Ok(()),
    }
}

// Appends the last field of an entry; of an open, the mode and the way.
fn push_last(text: &mut Vec<u8>, entry: &Entry) -> Result<(), OutOfMemory>
    ensures { OnOk result (text.new.items ≡ text.old.items ++ last_text entry.now) }
{
    match entry {
        Entry::Opened { mode, how, .. } => push_mode_and_how(text, *mode, *how),
        Entry::Created { perms, .. } => push_number(text, u64::from(*perms)),
        Entry::Attached { part, .. } | Entry::Cleared { part, .. } | Entry::Detached { part, .. } =>
            push_number(text, part.get()),
        Entry::Mapped { count, .. } => push_number(text, u64::from(*count)),
        Entry::Access { bytes, .. } => push_runs(text, bytes.as_slice()),
        Entry::Missed { found, .. } => push_found(text, *found),
        Entry::Extended { block, .. } => push_block(text, *block),
        Entry::Released { block, .. } => push_number(text, block.get()),
        Entry::Sized { size, .. } | Entry::SizeRead { size, .. } => push_number(text, *size),
        Entry::Closed { fd, .. } => push_number(text, fd.get()),
        Entry::Unlinked { file, .. } => push_number(text, file.get()),
        Entry::Refused { reason, .. } => push_reason(text, *reason),
    }
}

// Appends the fields of an entry.
fn push_fields(text: &mut Vec<u8>, entry: &Entry) -> Result<(), OutOfMemory>
    ensures { OnOk result (text.new.items ≡ text.old.items ++ fields_text entry.now) }
{
    push_leading(text, entry)?;
    push_last(text, entry)
}

// Appends the line of an entry, without its LF.
fn push_entry(text: &mut Vec<u8>, entry: &Entry) -> Result<(), OutOfMemory>
    ensures { OnOk result (text.new.items ≡ text.old.items ++ entry_text entry.now) }
{
    let at = at_of(entry);
    push_number_field(text, at.process.get())?;
    push_number_field(text, u64::from(at.call))?;
    push_field(text, word_bytes(word_of(entry)))?;
    push_fields(text, entry)
}

/// The text of a journal.
pub fn print_journal(alloc: Global, entries: &[Entry]) -> Result<Bytes, OutOfMemory>
    ensures { IfOk result (λ text. text ≡ journal_text entries.now) }
{
    let mut text = Vec::new(alloc);
    push_bytes(&mut text, b"bypassd-journal 1\n")?;
    for entry in entries {
        push_entry(&mut text, entry)?;
        text.push(LF)?;
    }
    Ok(List::from_vec(text))
}
