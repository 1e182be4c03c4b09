//! Reading a text into a journal.
ghost use Rattle.std.specs.Prelude.{◌≡◌, ◌++◌, ◌∷◌, IfSome, IfNone, IfOk, IfErr};
ghost use Rattle.bd_blocks.specs.Texts.{HasFirst, HasNoFirst, Reads};
ghost use Rattle.bd_blocks.specs.declared.text.TheConstants.{LF};
ghost use Rattle.bd_entry.specs.Ranges.{AreEntries, IsEntry};
ghost use Rattle.bd_entry.specs.Reading.{HasAtFirst, HasNoAtFirst, IsAfterReport, RefusesJournal};
ghost use Rattle.bd_entry.specs.Texts.{entry_text, header, journal_text, word_text};

mod fields;
pub mod kinds;
mod numbers;
mod reasons;

use crate::entry::{Entry, EntryList};
use crate::error::JournalError;
use crate::read::kinds::read_fields;
use crate::read::numbers::front_number;
use crate::words::{Word, read_word};
use bd_base::{At, CALLS, List, OutOfMemory, PROCESSES, Pid};
use bd_blocks::text::{LF, SPACE, split_at_byte};
use std::alloc::Global;

// The call at the front of a line, and what follows it.
fn front_at(text: &[u8]) -> Option<(At, &[u8])>
    ensures some { IfSome result (λ f. HasAtFirst text.now f.0 f.1.now) }
    ensures none { IfNone result (HasNoAtFirst text.now) }
{
    let (process, rest) = front_number(text, PROCESSES - 1)?;
    let (call, rest) = front_number(rest, CALLS - 1)?;
    let at = At {
        process: Pid::new(process)?,
        call: call as u16,
    };
    Some((at, rest))
}

// The word in the first field of a text, and what follows the field.
fn front_word(text: &[u8]) -> Option<(Word, &[u8])>
    ensures some { IfSome result (λ f. HasFirst word_text (λ _. Unit {0}) text.now f.0 f.1.now) }
    ensures none { IfNone result (HasNoFirst word_text (λ _. Unit {0}) text.now) }
{
    let (field, rest) = split_at_byte(text, SPACE)?;
    Some((read_word(field)?, rest))
}

/// Reads the line of an entry, without its LF: None where it has no reading.
pub fn read_entry(alloc: Global, line: &[u8]) -> Result<Option<Entry>, OutOfMemory>
    ensures { IfOk result (Reads entry_text IsEntry line.now) }
{
    let Some((at, rest)) = front_at(line) else {
        return Ok(None);
    };
    let Some((word, rest)) = front_word(rest) else {
        return Ok(None);
    };
    read_fields(alloc, at, word, rest)
}

// Reads the lines after the first.
fn read_lines(alloc: Global, text: &[u8]) -> Result<EntryList, JournalError>
    ensures entries { IfOk result AreEntries }
    ensures text { IfOk result (λ entries. header ++ LF ∷ text.now ≡ journal_text entries) }
    ensures refused { IfErr result (RefusesJournal (header ++ LF ∷ text.now)) }
{
    let mut entries = List::new(alloc);
    let mut number = 2;
    let mut rest = text;
    while !rest.is_empty() {
        let Some((line, next)) = split_at_byte(rest, LF) else {
            return Err(JournalError::BadJournal { line: number });
        };
        let Some(entry) = read_entry(alloc, line)? else {
            return Err(JournalError::BadJournal { line: number });
        };
        entries.push(entry)?;
        rest = next;
        number += 1;
    }
    Ok(entries)
}

/// Reads a journal.
///
/// `BadJournal` tells the number, from 1, of the first line that has no reading.
pub fn read_journal(alloc: Global, bytes: &[u8]) -> Result<EntryList, JournalError>
    ensures entries { IfOk result AreEntries }
    ensures text { IfOk result (λ entries. bytes.now ≡ journal_text entries) }
    ensures refused { IfErr result (RefusesJournal bytes.now) }
{
    let Some(rest) = bytes.strip_prefix(b"bypassd-journal 1\n".as_slice()) else {
        return Err(JournalError::BadJournal { line: 1 });
    };
    read_lines(alloc, rest)
}

/// The place of the first line that is the header of a journal, or the length of the text where there is none.
pub fn after_report(bytes: &[u8]) -> usize
    ensures { IsAfterReport bytes.now result }
{
    let mut place = 0;
    let mut rest = bytes;
    while let Some((line, next)) = split_at_byte(rest, LF) {
        if line == b"bypassd-journal 1".as_slice() {
            return place;
        }
        place += line.len() + 1;
        rest = next;
    }
    if rest == b"bypassd-journal 1".as_slice() {
        place
    } else {
        bytes.len()
    }
}
