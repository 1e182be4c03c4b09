//! Whether a whole journal is legal and in order.
ghost use Rattle.std.specs.Prelude.{◌≡◌, ◌↔◌, ◌+◌, ◌<◌, ◌≤◌, [], ℕ, Err, IfOk, OnOk, Some, length, map, slice_get, take};
ghost use Rattle.bd_base.specs.declared.limits.TheConstants.{PROCESSES};
ghost use Rattle.bd_base.specs.declared.script.Process.{Process};
ghost use Rattle.bd_base.specs.declared.volume.Volume.{Volume};
ghost use Rattle.bd_base.specs.Scripts.{IsWithinLimits};
ghost use Rattle.bd_base.specs.Volumes.{IsSoundVolume};
ghost use Rattle.bd_entry.specs.declared.entry.Entry.{Entry};
ghost use Rattle.bd_entry.specs.Laws.{IsHistory};
ghost use Rattle.bd_entry.specs.Rules.{BreaksRule};
ghost use Rattle.bd_entry.specs.Store.{Store, start_store};
ghost use Rattle.bd_store.specs.Kept.{Represents};
ghost use Rattle.bd_store.specs.Verdicts.{AreFinished, BreaksFirst, IsFirstLess, IsLegalInOrder, IsTaken, LacksEndOf};

use crate::order::{call_at, fits_call, is_first_of_kind};
use crate::store::{ApplyError, PlainStore, UidList};
use bd_base::{At, List, OutOfMemory, Pid, Process, Script, Volume};
use bd_entry::{Entry, at_of};
use std::alloc::Global;

/// What a journal is.
#[derive(Clone, Copy, Debug, PartialEq, Eq)]
pub enum Verdict {
    /// It is legal and in order: each entry keeps all rules, and each call is finished.
    Legal,
    /// The entry of this number, from 0, is the first that breaks a rule; the least that it breaks is told, 1 to 13.
    NotLegal { entry: u64, rule: u8 },
    /// Each entry keeps all rules, and this call is the first unfinished one, by process and then by call.
    Unfinished { process: Pid, call: u16 },
}

/// What is kept of the journal so far.
#[derive(Drop)]
struct Progress {
    store: PlainStore,
    // How many calls of each process are finished.
    finished: Vec<u16>,
}

/// Decides whether the journal is legal from the volume with nothing open, and in order for the script.
///
/// The only error is that no memory is found.
pub fn check_journal(
    alloc: Global,
    volume: Volume,
    script: &Script,
    entries: &[Entry],
) -> Result<Verdict, OutOfMemory>
    requires volume { IsSoundVolume volume }
    requires script { IsWithinLimits script.now }
    ensures legal { IfOk result (λ verdict.
        (verdict ≡ Verdict.Legal) ↔ IsLegalInOrder volume script.now entries.now) }
    ensures broken { IfOk result (λ verdict. (entry rule : ℕ) →
        (verdict ≡ Verdict.NotLegal entry rule)
        ↔ BreaksFirst volume script.now entries.now entry rule) }
    ensures unfinished { IfOk result (λ verdict. (process call : ℕ) →
        (verdict ≡ Verdict.Unfinished process call)
        ↔ LacksEndOf volume script.now entries.now process call) }
{
    let mut progress = start(alloc, volume, script)?;
    for number in 0..entries.len() {
        match take_entry(&mut progress, script, entries, number) {
            Ok(()) => {}
            Err(ApplyError::Broken(rule)) => {
                return Ok(Verdict::NotLegal {
                    entry: number as u64,
                    rule,
                });
            }
            Err(ApplyError::OutOfMemory) => return Err(OutOfMemory),
        }
    }
    Ok(match first_unfinished(&progress.finished, script) {
        Some(at) => Verdict::Unfinished {
            process: at.process,
            call: at.call,
        },
        None => Verdict::Legal,
    })
}

/// The progress before the first entry.
fn start(alloc: Global, volume: Volume, script: &Script) -> Result<Progress, OutOfMemory>
    requires volume { IsSoundVolume volume }
    requires script { IsWithinLimits script.now }
    ensures store { IfOk result (λ progress.
        Represents progress.store (start_store volume script.now)) }
    ensures finished { IfOk result (λ progress. AreFinished script.now [] progress.finished.items) }
{
    let processes = script.processes.as_slice();
    let uids = uids_of(alloc, processes)?;
    let store = PlainStore::start(alloc, volume, uids)?;
    let finished = vec![in alloc; 0u16; processes.len()]?;
    Ok(Progress { store, finished })
}

/// The users of the processes.
fn uids_of(alloc: Global, processes: &[Process]) -> Result<UidList, OutOfMemory>
    ensures { IfOk result (λ uids. uids ≡ map (λ (p : Process). p.uid) processes.now) }
{
    let mut uids = List::with_capacity(alloc, processes.len())?;
    for process in processes {
        uids.push(process.uid)?;
    }
    Ok(uids)
}

/// Decides the entry of this number after those before it, and applies it.
fn take_entry(
    progress: &mut Progress,
    script: &Script,
    entries: &[Entry],
    number: usize,
) -> Result<(), ApplyError>
    ghost s: { Store }
    requires number { number < length entries.now }
    requires script { IsWithinLimits script.now }
    requires history { (volume : Volume) × IsHistory volume script.now (take number entries.now) s }
    requires store { Represents progress.old.store s }
    requires finished { AreFinished script.now (take number entries.now) progress.old.finished.items }
    ensures taken { OnOk result ((entry : Entry) → slice_get entries.now number ≡ Some entry →
        IsTaken script.now (take number entries.now) s entry progress.new.store) }
    ensures finished { OnOk result
        (AreFinished script.now (take (number + 1) entries.now) progress.new.finished.items) }
    ensures broken { (rule : ℕ) (entry : Entry) → result ≡ Err (ApplyError.Broken rule) →
        slice_get entries.now number ≡ Some entry →
        BreaksRule script.now (take number entries.now) s entry rule }
{
    let entry = &entries[number];
    let at = at_of(entry);
    let Some(call) = call_at(script, &at) else {
        return Err(ApplyError::Broken(1));
    };
    let process = at.process;
    let index = process.get() as usize;
    if at.call != progress.finished[index] {
        return Err(ApplyError::Broken(1));
    }
    let running = progress.store.running(process);
    if !fits_call(running, call, entry) {
        return Err(ApplyError::Broken(2));
    }
    if !is_first_of_kind(running, entry) {
        return Err(ApplyError::Broken(3));
    }
    progress.store.apply(call, entry)?;
    if !progress.store.is_running(process) {
        progress.finished[index] += 1;
    }
    Ok(())
}

/// The first unfinished call, by process and then by call.
fn first_unfinished(finished: &[u16], script: &Script) -> Option<At>
    requires many { length finished.now ≡ length script.now.processes }
    requires few { length script.now.processes ≤ PROCESSES }
    ensures { IsFirstLess finished.now script.now result }
{
    for (process, calls) in script.processes.as_slice().iter().enumerate() {
        let call = finished[process];
        if usize::from(call) < calls.calls.len() {
            let process = Pid::new(process as u64)?;
            return Some(At { process, call });
        }
    }
    None
}
