//! How a command ends, the exit code of each end, and its line of text.
ghost use Rattle.std.specs.Prelude.{◌≡◌, [], ◌++◌, IfOk, OnOk};
ghost use Rattle.bd_top.specs.Status.{bad_image_text, bad_journal_text, bad_script_text, code_of, fault_text_of, not_legal_text, unfinished_text};

use bd_base::{Bytes, List, OutOfMemory, Pid};
use bd_blocks::text::{push_bytes, push_number};
use bd_entry::EntryList;
use bd_machine::EventList;
use std::alloc::Global;

/// A source that a command reads.
#[derive(Clone, Copy, Debug, PartialEq, Eq)]
pub enum Which {
    Image,
    Script,
    Journal,
}

/// A sink that a command writes to.
#[derive(Clone, Copy, Debug, PartialEq, Eq)]
pub enum To {
    Out,
    Disk,
}

/// How a command ended.
#[derive(Clone, Copy, Debug, PartialEq, Eq)]
pub enum Status {
    /// All was written.
    Done,
    /// The words are those of no command.
    Usage,
    /// A read of this source failed.
    ReadFault(Which),
    /// A write to this sink failed; what went out is a prefix.
    WriteFault(To),
    /// The image breaks this rule, the least, at this place, the least (docs/FORMATS.md).
    BadImage { rule: u8, place: u64 },
    /// This line of the script, the first bad one, breaks this rule, the least; or it is the first line of a call that
    /// the machine does not run yet, with rule 0 (docs/FORMATS.md).
    BadScript { line: u64, rule: u8 },
    /// No memory was found; what went out is a prefix.
    OutOfMemory,
    /// This line of the journal's text, from 1, has no reading; 0 where the text is too long.
    BadJournal { line: u64 },
    /// This entry of the journal, from 0, breaks this rule, the least (docs/MACHINE.md).
    NotLegal { entry: u64, rule: u8 },
    /// This call of this process is not finished in the journal.
    Unfinished { process: Pid, call: u16 },
}

/// A status, and the journal and the trace of the run where there was one.
#[derive(Debug, Drop)]
pub struct Outcome {
    pub status: Status,
    /// Empty after a status before the run.
    pub journal: EntryList,
    /// Empty after a status before the run.
    pub trace: EventList,
}

/// An outcome before a run.
pub(crate) fn without_run(alloc: Global, status: Status) -> Outcome
    ensures { result ≡ record { status = status; journal = []; trace = [] } }
{
    Outcome {
        status,
        journal: List::new(alloc),
        trace: List::new(alloc),
    }
}

/// The exit code of a status.
pub fn code(status: &Status) -> u8
    ensures { result ≡ code_of status.now }
{
    match status {
        Status::Done => 0,
        Status::Usage => 2,
        Status::ReadFault(_) => 3,
        Status::WriteFault(_) => 4,
        Status::BadImage { .. } => 5,
        Status::BadScript { .. } => 6,
        Status::OutOfMemory => 7,
        Status::BadJournal { .. } => 8,
        Status::NotLegal { .. } => 9,
        Status::Unfinished { .. } => 10,
    }
}

/// The line of text that tells a status, without its end; nothing for Done.
pub fn fault_text(alloc: Global, status: &Status) -> Result<Bytes, OutOfMemory>
    ensures { IfOk result (λ text. text ≡ fault_text_of status.now) }
{
    let mut text = Vec::new(alloc);
    match status {
        Status::Done => {}
        Status::Usage => push_bytes(&mut text, b"bypassd: usage")?,
        Status::ReadFault(Which::Image) => push_bytes(&mut text, b"bypassd: read fault: image")?,
        Status::ReadFault(Which::Script) => push_bytes(&mut text, b"bypassd: read fault: script")?,
        Status::ReadFault(Which::Journal) => push_bytes(
            &mut text,
            b"bypassd: read fault: journal",
        )?,
        Status::WriteFault(To::Out) => push_bytes(&mut text, b"bypassd: write fault: out")?,
        Status::WriteFault(To::Disk) => push_bytes(&mut text, b"bypassd: write fault: disk")?,
        Status::BadImage { rule, place } => push_bad_image(&mut text, *rule, *place)?,
        Status::BadScript { line, rule } => push_bad_script(&mut text, *line, *rule)?,
        Status::OutOfMemory => push_bytes(&mut text, b"bypassd: out of memory")?,
        Status::BadJournal { line } => push_bad_journal(&mut text, *line)?,
        Status::NotLegal { entry, rule } => push_not_legal(&mut text, *entry, *rule)?,
        Status::Unfinished { process, call } => push_unfinished(&mut text, *process, *call)?,
    }
    Ok(List::from_vec(text))
}

/// Appends the line of a bad image.
fn push_bad_image(text: &mut Vec<u8>, rule: u8, place: u64) -> Result<(), OutOfMemory>
    ensures { OnOk result (text.new.items ≡ text.old.items ++ bad_image_text rule place) }
{
    push_bytes(text, b"bypassd: bad image: rule ")?;
    push_number(text, u64::from(rule))?;
    push_bytes(text, b" at ")?;
    push_number(text, place)?;
    Ok(())
}

/// Appends the line of a bad script.
fn push_bad_script(text: &mut Vec<u8>, line: u64, rule: u8) -> Result<(), OutOfMemory>
    ensures { OnOk result (text.new.items ≡ text.old.items ++ bad_script_text line rule) }
{
    push_bytes(text, b"bypassd: bad script: rule ")?;
    push_number(text, u64::from(rule))?;
    push_bytes(text, b" at line ")?;
    push_number(text, line)?;
    Ok(())
}

/// Appends the line of a bad journal.
fn push_bad_journal(text: &mut Vec<u8>, line: u64) -> Result<(), OutOfMemory>
    ensures { OnOk result (text.new.items ≡ text.old.items ++ bad_journal_text line) }
{
    push_bytes(text, b"bypassd: bad journal: line ")?;
    push_number(text, line)?;
    Ok(())
}

/// Appends the line of an entry that is not legal.
fn push_not_legal(text: &mut Vec<u8>, entry: u64, rule: u8) -> Result<(), OutOfMemory>
    ensures { OnOk result (text.new.items ≡ text.old.items ++ not_legal_text entry rule) }
{
    push_bytes(text, b"bypassd: not legal: entry ")?;
    push_number(text, entry)?;
    push_bytes(text, b" rule ")?;
    push_number(text, u64::from(rule))?;
    Ok(())
}

/// Appends the line of an unfinished call.
fn push_unfinished(text: &mut Vec<u8>, process: Pid, call: u16) -> Result<(), OutOfMemory>
    ensures { OnOk result (text.new.items ≡ text.old.items ++ unfinished_text process call) }
{
    push_bytes(text, b"bypassd: unfinished: process ")?;
    push_number(text, process.get())?;
    push_bytes(text, b" call ")?;
    push_number(text, u64::from(call))?;
    Ok(())
}
