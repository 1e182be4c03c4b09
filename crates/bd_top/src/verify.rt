//! The command `verify`.
ghost use Rattle.std.specs.Prelude.{◌≡◌, ◌≤◌, ◌+◌, ℕ, Err, IfErr, IfOk, length};
ghost use Rattle.bd_base.specs.declared.limits.TheConstants.{IMAGE_SIZE, JOURNAL_SIZE, SCRIPT_SIZE};
ghost use Rattle.bd_base.specs.declared.script.Script.{Script};
ghost use Rattle.bd_base.specs.declared.volume.Volume.{Volume};
ghost use Rattle.bd_entry.specs.declared.error.JournalError.TheVariants.{BadJournal};
ghost use Rattle.bd_base.specs.Scripts.{IsProcess, IsWithinLimits};
ghost use Rattle.bd_entry.specs.declared.entry.Entry.{Entry};
ghost use Rattle.bd_entry.specs.Calls.{pieces_of_call};
ghost use Rattle.bd_image.specs.Volumes.{AcceptedVolume};
ghost use Rattle.bd_outside.specs.Around.{ReadAtMost, reading, writing};
ghost use Rattle.bd_top.specs.Verify.{FindsLegal, HasBadLine, HasJournal, IsJournalRead, IsVerdictOn, RefusesJournal, RefusesVerify, Verifies, call_count, fault_of, is_ended, line_count, piece_count, pieces_in, verify_line};

use crate::check::write_line;
use crate::inputs::{read_image, read_script};
use crate::status::{Status, Which};
use bd_base::{Bytes, Call, JOURNAL_SIZE, List, OutOfMemory, Process, Script, Volume};
use bd_blocks::text::{LF, push_bytes, push_number};
use bd_entry::{
    EntryList, JournalError, after_report, bad_is_no_journal, one_bad_line, one_journal,
    read_journal,
};
use bd_image::{one_refusal, refused_is_not_accepted, sound_volumes};
use bd_outside::{ReadError, Sink, Source, read_all};
use bd_store::{Verdict, check_journal, pieces_of};
use std::alloc::Global;

/// Whether the last line of the text, if there is one, is ended.
fn is_ended(text: &[u8]) -> bool
    ensures { result ≡ is_ended text.now }
{
    match text.last() {
        Some(last) => *last == LF,
        None => true,
    }
}

/// How many lines the text has; the last may not be ended.
fn lines_in(text: &[u8]) -> u64
    ensures { result ≡ line_count text.now }
{
    let ended = text.iter().filter(|byte| **byte == LF).count() as u64;
    if is_ended(text) { ended } else { ended + 1 }
}

/// The entries from the first line on that is the header of a journal; `BadJournal` counts lines
/// from the first of the whole text.
fn journal_in(alloc: Global, text: &[u8]) -> Result<EntryList, JournalError>
    requires size { length text.now ≤ JOURNAL_SIZE }
    ensures ok { IfOk result (HasJournal text.now) }
    ensures bad { (line : ℕ) → result ≡ Err (BadJournal line) → HasBadLine text.now line }
{
    let place = after_report(text);
    match read_journal(alloc, &text[place..]) {
        Ok(entries) => Ok(entries),
        Err(JournalError::BadJournal { line }) => Err(JournalError::BadJournal {
            line: lines_in(&text[..place]) + line,
        }),
        Err(JournalError::OutOfMemory) => Err(JournalError::OutOfMemory),
    }
}

/// Reads the journal from its source.
fn read_entries<J: Source>(alloc: Global, journal: &mut J) -> Result<EntryList, Status>
    ensures ok { IfOk result (IsJournalRead (reading J.Source journal.old journal.new)) }
    ensures err { IfErr result (RefusesJournal (reading J.Source journal.old journal.new)) }
    ensures taken { ReadAtMost (JOURNAL_SIZE + 1) (reading J.Source journal.old journal.new) }
{
    let text = match read_all(alloc, journal, JOURNAL_SIZE as usize) {
        Ok(text) => text,
        Err(ReadError::Fault) => return Err(Status::ReadFault(Which::Journal)),
        Err(ReadError::TooLong) => return Err(Status::BadJournal { line: 0 }),
        Err(ReadError::OutOfMemory) => return Err(Status::OutOfMemory),
    };
    match journal_in(alloc, text.as_slice()) {
        Ok(entries) => Ok(entries),
        Err(JournalError::BadJournal { line }) => Err(Status::BadJournal { line }),
        Err(JournalError::OutOfMemory) => Err(Status::OutOfMemory),
    }
}

/// How many calls the script has.
fn calls_in(script: &Script) -> u64
    requires { IsWithinLimits script.now }
    ensures { result ≡ call_count script.now }
{
    let mut calls = 0;
    for process in script.processes.as_slice() {
        calls += process.calls.len() as u64;
    }
    calls
}

/// How many pieces the calls of a process have, a raw command one.
fn pieces_of_process(process: &Process) -> u64
    requires { IsProcess process.now }
    ensures { result ≡ pieces_in process.now }
{
    let mut count = 0;
    for call in process.calls.as_slice() {
        count += pieces_of(call).as_slice().len() as u64;
    }
    count
}

/// How many pieces the script's reads, writes and raw commands have.
fn pieces_in_script(script: &Script) -> u64
    requires { IsWithinLimits script.now }
    ensures { result ≡ piece_count script.now }
{
    let mut count = 0;
    for process in script.processes.as_slice() {
        count += pieces_of_process(process);
    }
    count
}

/// The line that tells of a legal journal.
fn line_of(alloc: Global, script: &Script) -> Result<Bytes, OutOfMemory>
    requires { IsWithinLimits script.now }
    ensures { IfOk result (λ line. line ≡ verify_line script.now) }
{
    let mut text = Vec::new(alloc);
    push_bytes(&mut text, b"legal calls ")?;
    push_number(&mut text, calls_in(script))?;
    push_bytes(&mut text, b" pieces ")?;
    push_number(&mut text, pieces_in_script(script))?;
    push_bytes(&mut text, b"\n")?;
    Ok(List::from_vec(text))
}

/// The status that tells of a verdict, none where the journal is legal.
fn fault_of(verdict: Verdict) -> Option<Status>
    ensures { result ≡ fault_of verdict }
{
    match verdict {
        Verdict::Legal => None,
        Verdict::NotLegal { entry, rule } => Some(Status::NotLegal { entry, rule }),
        Verdict::Unfinished { process, call } => Some(Status::Unfinished { process, call }),
    }
}

/// Reads the image, the script and the journal, and finds the journal legal: the line that tells
/// so. It takes no sink.
fn read_and_judge<I: Source, S: Source, J: Source>(
    alloc: Global,
    image: &mut I,
    script: &mut S,
    journal: &mut J,
) -> Result<Bytes, Status>
    ensures ok { IfOk result (λ line. (t : Script) × FindsLegal
        (reading I.Source image.old image.new) (reading S.Source script.old script.new)
        (reading J.Source journal.old journal.new) t × (line ≡ verify_line t)) }
    ensures err { IfErr result (RefusesVerify (reading I.Source image.old image.new)
        (reading S.Source script.old script.new) (reading J.Source journal.old journal.new)) }
    ensures image_taken { ReadAtMost (IMAGE_SIZE + 1) (reading I.Source image.old image.new) }
    ensures script_taken { ReadAtMost (SCRIPT_SIZE + 1) (reading S.Source script.old script.new) }
    ensures journal_taken { ReadAtMost (JOURNAL_SIZE + 1)
        (reading J.Source journal.old journal.new) }
{
    let volume = read_image(alloc, image)?;
    let script = read_script(alloc, script)?;
    let entries = read_entries(alloc, journal)?;
    sound_volumes();
    let line = match line_of(alloc, &script) {
        Ok(line) => line,
        Err(OutOfMemory) => return Err(Status::OutOfMemory),
    };
    let verdict = match check_journal(alloc, volume, &script, entries.as_slice()) {
        Ok(verdict) => verdict,
        Err(OutOfMemory) => return Err(Status::OutOfMemory),
    };
    match fault_of(verdict) {
        Some(status) => Err(status),
        None => Ok(line),
    }
}

/// Checks that a journal is one legal history of the files of an image by the calls of a script,
/// and writes one line that tells how many calls and pieces the script has.
///
/// What stands before the journal's first line is passed over. `BadJournal`, `NotLegal` and
/// `Unfinished` tell the first line that has no reading, the first entry that breaks a rule, with
/// the least rule, and the first unfinished call; then nothing is written. `Verifies`
/// (specs/Verify.antt) tells what each status means.
pub fn verify_all<I: Source, S: Source, J: Source, O: Sink>(
    alloc: Global,
    image: &mut I,
    script: &mut S,
    journal: &mut J,
    out: &mut O,
) -> Status
    ensures { Verifies (reading I.Source image.old image.new)
        (reading S.Source script.old script.new) (reading J.Source journal.old journal.new)
        (writing O.Sink out.old out.new) result }
{
    refused_is_not_accepted();
    one_refusal();
    one_journal();
    bad_is_no_journal();
    one_bad_line();
    match read_and_judge(alloc, image, script, journal) {
        Ok(line) => write_line(out, line.as_slice()),
        Err(status) => status,
    }
}
