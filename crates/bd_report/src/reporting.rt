//! The reply of a call, and the report of a run.
ghost use Rattle.std.specs.Prelude.{◌≡◌, ◌<◌, ◌++◌, ◌∷◌, [], IfOk, List, OnOk, length, true};
ghost use Rattle.bd_base.specs.Scripts.{IsCall, IsWithinLimits};
ghost use Rattle.bd_blocks.specs.Texts.{before, number_text};
ghost use Rattle.bd_blocks.specs.declared.text.TheConstants.{LF};
ghost use Rattle.bd_entry.specs.Calls.{is_finished};
ghost use Rattle.bd_entry.specs.History.{InOrder, InOrderSoFar};
ghost use Rattle.bd_entry.specs.declared.entry.Entry.{Entry};
ghost use Rattle.bd_report.specs.Basis.{IsBasis};
ghost use Rattle.bd_report.specs.Notes.{AreNotesOf, IsOfEnded};
ghost use Rattle.bd_report.specs.Replies.{call_text, reply_text};
ghost use Rattle.bd_report.specs.Reports.{process_lines, report_text};

use crate::journal::{call_at, notes_of_call, notes_of_calls};
use crate::notes::Notes;
use crate::replies::push_reply;
use crate::totals::{push_totals, totals_of};
use bd_base::{At, Bytes, CALLS, Call, List, OutOfMemory, Script};
use bd_blocks::text::{LF, push_bytes, push_field, push_number, push_number_field};
use bd_entry::Entry;
use std::alloc::Global;

/// The text of the reply of a call that is finished, from the script and the entries of that call alone.
///
/// The only error is want of memory.
pub fn reply(
    alloc: Global,
    script: &Script,
    journal: &[Entry],
    at: At,
) -> Result<Bytes, OutOfMemory>
    requires limits { IsWithinLimits script.now }
    requires in_order { InOrderSoFar script.now journal.now }
    requires finished { is_finished script.now journal.now at ≡ true }
    ensures { IfOk result (λ text. text ≡ reply_text script.now journal.now at) }
{
    let call = call_at(script, &at);
    let notes = notes_of_call(journal, at, call);
    let mut text = Vec::new(alloc);
    push_reply(&mut text, call, &notes)?;
    Ok(List::from_vec(text))
}

/// What a report is made from: a script, its journal, and the notes on each call.
#[derive(Debug, Drop)]
struct Basis<'a> {
    script: &'a Script,
    journal: &'a [Entry],
    notes: Vec<Notes<'a>>,
}

/// Appends the line of a call.
fn push_line(
    text: &mut Vec<u8>,
    number: usize,
    call: &Call,
    notes: &Notes,
) -> Result<(), OutOfMemory>
    requires limits { IsCall call.now }
    requires ended { IsOfEnded call.now notes.now }
    ensures { (entries : List Entry) → AreNotesOf call.now entries notes.now →
        OnOk result (text.new.items ≡ text.old.items
        ++ before (number_text number) (call_text call.now entries ++ LF ∷ [])) }
{
    push_number_field(text, number as u64)?;
    push_reply(text, call, notes)?;
    text.push(LF)?;
    Ok(())
}

/// Appends the lines of a process.
fn push_process(text: &mut Vec<u8>, basis: &Basis, number: usize) -> Result<(), OutOfMemory>
    requires inside { number < length basis.now.script.now.processes }
    requires is_run { IsBasis basis.now }
    ensures { OnOk result (text.new.items ≡ text.old.items
        ++ process_lines basis.now.script.now basis.now.journal.now number) }
{
    push_field(text, b"proc")?;
    push_number(text, number as u64)?;
    text.push(LF)?;
    let process = &basis.script.processes.as_slice()[number];
    let first = CALLS as usize * number;
    for (call_number, call) in process.calls.as_slice().iter().enumerate() {
        push_line(text, call_number, call, &basis.notes[first + call_number])?;
    }
    Ok(())
}

/// The text of the report of a run: a reply for each call, and the totals.
///
/// The only error is want of memory.
pub fn report(alloc: Global, script: &Script, journal: &[Entry]) -> Result<Bytes, OutOfMemory>
    requires limits { IsWithinLimits script.now }
    requires in_order { InOrder script.now journal.now }
    ensures { IfOk result (λ text. text ≡ report_text script.now journal.now) }
{
    let basis = Basis {
        script,
        journal,
        notes: notes_of_calls(alloc, script, journal)?,
    };
    let mut text = Vec::new(alloc);
    push_bytes(&mut text, b"bypassd-report 1\n")?;
    for number in 0..script.processes.len() {
        push_process(&mut text, &basis, number)?;
    }
    push_totals(&mut text, totals_of(journal))?;
    Ok(List::from_vec(text))
}
