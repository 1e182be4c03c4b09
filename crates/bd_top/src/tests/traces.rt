//! Traces as text.
use bd_machine::{Event, Row};
use bd_tables::Looked;
use std::alloc::Global;
use std::test::Fail;

/// The word of a turn without cache, walk or invalidation.
fn plain_word(row: &Row) -> &'static str {
    match row {
        Row::Opened => "opened",
        Row::Created => "created",
        Row::Attach => "attach",
        Row::Mapped => "mapped",
        Row::Extend => "extend",
        Row::SizeRead => "size-read",
        Row::Refused => "refused",
        Row::Submit => "submit",
        Row::Poll => "poll",
        Row::KernelAccess => "kernel-access",
        _ => "another",
    }
}

/// The word of a turn.
fn word(row: &Row) -> &'static str {
    match row {
        Row::Enter(None) => "enter",
        Row::Enter(Some(_)) => "enter-missed",
        Row::Look(Looked::Hit) => "look-hit",
        Row::Look(Looked::Miss) => "look-miss",
        Row::ReadEntry(None) => "read-entry",
        Row::ReadEntry(Some(_)) => "read-entry-missed",
        Row::Fill => "fill",
        Row::Move => "move",
        Row::Missed => "missed",
        Row::Retire => "retire",
        Row::Complete => "complete",
        row => plain_word(row),
    }
}

/// Appends a number and a blank.
pub(super) fn push_number(alloc: Global, text: &mut Vec<u8>, number: u64) -> Result<(), Fail> {
    let digits = format!(in alloc; "{number} ")?;
    text.extend_from_slice(digits.as_bytes())?;
    Ok(())
}

/// Appends a line: its numbers, each with a blank after it, and a word.
pub(super) fn push_line(
    alloc: Global,
    text: &mut Vec<u8>,
    numbers: &[u64],
    word: &str,
) -> Result<(), Fail> {
    for number in numbers {
        push_number(alloc, text, *number)?;
    }
    text.extend_from_slice(word.as_bytes())?;
    text.push(b'\n')?;
    Ok(())
}

/// A line for each event: its turn, its actor and its word.
pub(super) fn trace_text(alloc: Global, trace: &[Event]) -> Result<Vec<u8>, Fail> {
    let mut text = Vec::new(alloc);
    for event in trace {
        let numbers = [event.turn, event.actor.get()];
        push_line(alloc, &mut text, numbers.as_slice(), word(&event.row))?;
    }
    Ok(text)
}
