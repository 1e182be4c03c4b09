//! Notes on the calls of a journal, in one pass over it.
ghost use Rattle.std.specs.Prelude.{◌≡◌, ◌<◌, ◌++◌, All, IfOk, IsSome, List, OnOk, Some, [], length, true};
ghost use Rattle.bd_base.specs.Scripts.{IsWithinLimits};
ghost use Rattle.bd_base.specs.declared.script.Call.{Call};
ghost use Rattle.bd_entry.specs.Calls.{call_at, entries_of};
ghost use Rattle.bd_entry.specs.History.{InOrderSoFar};
ghost use Rattle.bd_report.specs.Notes.{AreFew, AreNotesOfAll, AreNotesOf, slot_of};

use crate::notes::Notes;
use bd_base::{At, CALLS, Call, OutOfMemory, Script};
use bd_entry::{Entry, at_of};
use std::alloc::Global;

/// The call at this place of a script.
pub(crate) fn call_at<'s>(script: &'s Script, at: &At) -> &'s Call
    requires { IsSome (call_at script.now at.now) }
    ensures { call_at script.now at.now ≡ Some result.now }
{
    let process = &script.processes.as_slice()[at.process.get() as usize];
    &process.calls.as_slice()[usize::from(at.call)]
}

/// The notes on one call of the journal.
pub(crate) fn notes_of_call<'a>(journal: &'a [Entry], at: At, call: &Call) -> Notes<'a>
    requires { AreFew journal.now }
    ensures { AreNotesOf call.now (entries_of at journal.now) result }
{
    let mut notes = Notes::new();
    for entry in journal {
        if at_of(entry) == at {
            notes.note(call, entry);
        }
    }
    notes
}

/// The place of a call in a table that has room for all calls that each process may have.
pub(crate) fn slot_of(at: At) -> usize
    ensures { result ≡ slot_of at }
{
    CALLS as usize * at.process.get() as usize + usize::from(at.call)
}

/// Notes on so many calls, with no entry noted yet.
fn empty_notes<'a>(alloc: Global, count: usize) -> Result<Vec<Notes<'a>>, OutOfMemory>
    ensures count { IfOk result (λ table. length table.items ≡ count) }
    ensures nothing { IfOk result
        (λ table. All (λ notes. (call : Call) → AreNotesOf call [] notes) table.items) }
{
    let mut table = Vec::with_capacity(alloc, count)?;
    for _ in 0..count {
        table.push(Notes::new())?;
    }
    Ok(table)
}

/// The notes on each call of the journal, by their places in a table.
pub(crate) fn notes_of_calls<'a>(
    alloc: Global,
    script: &Script,
    journal: &'a [Entry],
) -> Result<Vec<Notes<'a>>, OutOfMemory>
    requires limits { IsWithinLimits script.now }
    requires in_order { InOrderSoFar script.now journal.now }
    ensures { IfOk result (λ table. AreNotesOfAll script.now journal.now table.items) }
{
    let mut table = empty_notes(alloc, CALLS as usize * script.processes.len())?;
    for entry in journal {
        let at = at_of(entry);
        let notes = &mut table[slot_of(at)];
        notes.note(call_at(script, &at), entry);
    }
    Ok(table)
}
