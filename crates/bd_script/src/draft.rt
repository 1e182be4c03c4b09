//! A script that is made line by line.
ghost use Rattle.std.specs.Prelude.{◌≡◌, ℕ, ◌<◌, ◌≤◌, ◌++◌, ◌∷◌, [], length, IfOk, IfErr, All};
ghost use Rattle.std.specs.Option.{option_to_list};
ghost use Rattle.bd_base.specs.declared.limits.TheConstants.{PROCESSES, USERS};
ghost use Rattle.bd_script.specs.Drafts.{AreKeptOf, HasMore, IsReadForm, RefusesForm, RefusesForms, TakesForm};
ghost use Rattle.bd_script.specs.Lines.{IsReadLine, Stands};
ghost use Rattle.bd_script.specs.Rules.{IsForm, IsInRange};
ghost use Rattle.bd_base.specs.Scripts.{IsCall, IsWithinLimits};
ghost use Rattle.bd_script.specs.Texts.{Form, ProcForm, CallForm};

use crate::fault::Fault;
use crate::lines::Line;
use crate::schedules::{Turns, items_of, turns_left};
use bd_base::{
    CALLS, Call, ITEMS, List, OutOfMemory, PROCESSES, Process, ProcessList, SCHEDULES,
    ScheduleLine, ScheduleList, Script, TURNS,
};
use std::alloc::Global;
use std::marker::Model;

// The processes, with the last one.
fn all_processes(processes: ProcessList, last: Option<Process>) -> Result<ProcessList, OutOfMemory>
    ensures { IfOk result (λ all. all ≡ processes ++ option_to_list last) }
{
    let mut processes = processes;
    if let Some(process) = last {
        processes.push(process)?;
    }
    Ok(processes)
}

/// A script so far. Contracts see it as a script, which is within the limits.
#[derive(Debug, Drop)]
pub struct Draft {
    processes: ProcessList,
    // The last process, to which calls are added.
    last: Option<Process>,
    schedule: ScheduleList,
    // How many turns there may still be.
    left: u64,
}

impl Model for Draft {
    ghost use Rattle.bd_base.specs.declared.script.Script.{Script};
    ghost use Rattle.bd_script.specs.Drafts.{IsDraft, parts, script_of};

    ghost Value = { Script };

    ghost view = { λ d. script_of (parts d.processes d.last d.schedule d.left) };

    ghost invariant = { λ d. IsDraft (parts d.processes d.last d.schedule d.left) };
}

impl Draft {
    /// A script of no process.
    pub fn new(alloc: Global) -> Draft
        ensures empty { result ≡ record { processes = []; schedule = [] } }
        ensures limits { IsWithinLimits result }
    {
        Draft {
            processes: List::new(alloc),
            last: None,
            schedule: List::new(alloc),
            left: TURNS,
        }
    }

    // How many processes there are.
    fn process_count(&self) -> u64
        ensures count { result ≡ length self.now.processes }
        ensures most { result ≤ PROCESSES }
    {
        match &self.last {
            None => 0,
            Some(_) => self.processes.len() as u64 + 1,
        }
    }

    // Adds a process.
    fn with_process(self, alloc: Global, uid: u32) -> Result<Draft, Fault>
        ensures ok { IfOk result (HasMore self (ProcForm uid)) }
        ensures refused { IfErr result (RefusesForm self (ProcForm uid)) }
    {
        if !self.schedule.is_empty() {
            return Err(Fault::Order);
        }
        if self.process_count() >= PROCESSES {
            return Err(Fault::Place);
        }
        let Draft {
            processes,
            last,
            schedule,
            left,
        } = self;
        let processes = all_processes(processes, last)?;
        let last = Process {
            uid,
            calls: List::new(alloc),
        };
        Ok(Draft {
            processes,
            last: Some(last),
            schedule,
            left,
        })
    }

    // Adds a call to the last process.
    fn with_call(self, call: Call) -> Result<Draft, Fault>
        requires { IsCall call }
        ensures ok { IfOk result (HasMore self (CallForm call)) }
        ensures refused { IfErr result (RefusesForm self (CallForm call)) }
    {
        let Draft {
            processes,
            last,
            schedule,
            left,
        } = self;
        if !schedule.is_empty() {
            return Err(Fault::Order);
        }
        let Some(process) = last else {
            return Err(Fault::Order);
        };
        let Process { uid, mut calls } = process;
        if calls.len() >= CALLS as usize {
            return Err(Fault::Place);
        }
        calls.push(call)?;
        Ok(Draft {
            processes,
            last: Some(Process { uid, calls }),
            schedule,
            left,
        })
    }

    // Adds a schedule line.
    fn with_items(self, alloc: Global, kept: &[Turns]) -> Result<Draft, Fault>
        requires { IsReadForm (AreKeptOf kept.now) }
        ensures ok { IfOk result (TakesForm (AreKeptOf kept.now) self) }
        ensures refused { IfErr result (RefusesForms (AreKeptOf kept.now) self) }
    {
        if self.schedule.len() >= SCHEDULES as usize {
            return Err(Fault::Place);
        }
        if kept.len() > ITEMS as usize {
            return Err(Fault::Place);
        }
        let Some(left) = turns_left(kept, self.left) else {
            return Err(Fault::Place);
        };
        let items = items_of(alloc, kept, 2 * self.process_count())?;
        let mut schedule = self.schedule;
        schedule.push(ScheduleLine { items })?;
        Ok(Draft {
            processes: self.processes,
            last: self.last,
            schedule,
            left,
        })
    }

    /// Adds what a line says.
    pub fn with_line(self, alloc: Global, line: Line) -> Result<Draft, Fault>
        requires { IsReadForm (Stands line) }
        ensures ok { IfOk result (TakesForm (Stands line) self) }
        ensures refused { IfErr result (RefusesForms (Stands line) self) }
    {
        match line {
            Line::Proc(uid) => self.with_process(alloc, uid),
            Line::Call(call) => self.with_call(call),
            Line::Schedule(kept) => self.with_items(alloc, kept.as_slice()),
        }
    }

    /// The whole script.
    pub fn finish(self) -> Result<Script, OutOfMemory>
        ensures script { IfOk result (λ script. script ≡ self) }
        ensures limits { IfOk result IsWithinLimits }
    {
        let Draft {
            processes,
            last,
            schedule,
            left: _,
        } = self;
        Ok(Script {
            processes: all_processes(processes, last)?,
            schedule,
        })
    }
}
