//! The calls of a machine.
ghost use Rattle.std.specs.Prelude.{◌≡◌, ◌+◌, ◌*◌, ◌<◌, [], All, IfOk, IfSome, OnErr, OnOk, is_none, length};
ghost use Rattle.std.specs.Bool.{OnFalse, OnTrue};
ghost use Rattle.bd_base.specs.Scripts.{IsWithinLimits};
ghost use Rattle.bd_base.specs.Volumes.{IsSoundVolume};
ghost use Rattle.bd_entry.specs.History.{InOrder};
ghost use Rattle.bd_entry.specs.Store.{start_store};
ghost use Rattle.bd_machine.specs.Booted.{AreNew, IsBooted, IsNew, volume_on};
ghost use Rattle.bd_machine.specs.Machine.{AreFinished, InItsStates, IsFirstUnfinished, IsLeft, IsShown, IsSomeHistory, shown, state_of, stepped};
ghost use Rattle.bd_machine.specs.Shows.{plain_sides};
ghost use Rattle.bd_machine.specs.Turns.{AreBuilt, IsAt, StaysAt, TookTurn};
ghost use Rattle.bd_turns.specs.Reached.{IsActor};
ghost use Rattle.bd_turns.specs.State.{State, boot_state, progress_of};
ghost use Rattle.bd_turns.specs.Turns.{LowersRest, SomeActorActs, all_ended, answer_of};

use crate::log::Log;
use crate::machine::Machine;
use crate::parts::Parts;
use crate::process::Process;
use crate::run::Run;
use bd_base::{Actor, At, InodeList, OutOfMemory, Pid, Script, Volume, copy_inodes};
use bd_entry::Entry;
use bd_kernel::Disk;
use bd_medium::{Medium, Plain};
use bd_tables::{KernelSide, PlainTables, Tables};
use bd_turns::{Event, Turn};
use std::alloc::Global;

impl<T: KernelSide, M: Medium> Machine<T, M> {
    /// A machine before its first turn, over these tables, which are new and for as many processes as the script has.
    /// The volume is that of these files and the bytes on the medium; it is sound. The script is within the limits and has
    /// only calls that are built.
    pub fn boot(
        alloc: Global,
        total: u32,
        inodes: InodeList,
        script: Script,
        tables: T,
        medium: M,
    ) -> Result<Machine<T, M>, OutOfMemory>
        requires volume { IsSoundVolume (volume_on total inodes (M.contents medium)) }
        requires script { IsWithinLimits script }
        requires built { AreBuilt script }
        requires tables { AreNew T.Tables script tables }
        ensures script { IfOk result (λ machine. machine.script ≡ script) }
        ensures booted { IfOk result
            (λ machine. IsBooted T.Tables (volume_on total inodes (M.contents medium)) script machine.parts) }
        ensures shown { IfOk result (λ machine. IsShown T.Tables machine
            (boot_state (start_store (volume_on total inodes (M.contents medium)) script) script)) }
    {
        let count = script.processes.len();
        let disk = Disk::new(alloc, total, inodes, medium, count)?;
        let processes = new_processes(alloc, count)?;
        Ok(Machine {
            script,
            parts: Parts {
                alloc,
                disk,
                tables,
                processes,
                log: Log::new(alloc),
            },
        })
    }

    /// One turn of a processor. After an error the machine is as before the turn.
    pub fn step_processor(&mut self, p: Pid) -> Result<Turn, OutOfMemory>
        ghost m: { State }
        requires state { IsShown T.Tables self.old m }
        requires process { p < length self.old.script.processes }
        ensures script { self.new.script ≡ self.old.script }
        ensures ok { IfOk result
            (λ turn. TookTurn T.Tables self.old.script self.old.parts self.new.parts m p turn) }
        ensures err { OnErr result (StaysAt T.Tables self.old.script self.old.parts self.new.parts m) }
    {
        self.parts.step_processor(&self.script, p)
    }

    /// One turn of the invalidation engine.
    pub fn step_invalidation(&mut self) -> Result<Turn, OutOfMemory>
        ghost m: { State }
        requires state { IsShown T.Tables self.old m }
        ensures script { self.new.script ≡ self.old.script }
        ensures ok { IfOk result (λ turn. TookTurn T.Tables self.old.script self.old.parts self.new.parts m
            (2 * length self.old.script.processes) turn) }
        ensures err { OnErr result (StaysAt T.Tables self.old.script self.old.parts self.new.parts m) }
    {
        self.parts.step_invalidation(&self.script)
    }
}

impl<T: Tables, M: Medium> Machine<T, M> {
    /// How many calls of a process have ended. Each of them is finished in the journal.
    pub fn answered(&self, p: Pid) -> u32
        requires { p < length self.now.script.processes }
        ensures ended { InItsStates T.Tables self.now (λ m. result ≡ (progress_of m p).ended) }
        ensures finished { InItsStates T.Tables self.now (λ m. AreFinished m p result) }
    {
        u32::from(self.parts.processes[p.get() as usize].ended)
    }

    /// The first process whose running call has not ended, and that call.
    pub fn unfinished(&self) -> Option<At>
        ensures none { InItsStates T.Tables self.now (λ m. is_none result ≡ all_ended m) }
        ensures first { InItsStates T.Tables self.now (λ m. IfSome result (IsFirstUnfinished m)) }
    {
        for number in 0..self.script.processes.len() {
            let calls = self.script.processes.as_slice()[number].calls.len();
            let ended = self.parts.processes[number].ended;
            if usize::from(ended) < calls {
                return Some(At {
                    process: Pid::new(number as u64).unwrap(),
                    call: ended,
                });
            }
        }
        None
    }

    /// Whether all calls of the script have ended. Until then some actor's turn has an effect.
    pub fn finished(&self) -> bool
        ensures ended { InItsStates T.Tables self.now (λ m. result ≡ all_ended m) }
        ensures never_stuck { InItsStates T.Tables self.now (λ m. OnFalse result (SomeActorActs m)) }
        ensures in_order { InItsStates T.Tables self.now (λ m. OnTrue result (InOrder m.script m.journal)) }
    {
        // The state is one to which the machine can come.
        let _script = &self.script;
        self.unfinished().is_none()
    }

    /// The journal so far: one legal history, whatever turns were taken.
    pub fn journal(&self) -> &[Entry]
        ensures journal { InItsStates T.Tables self.now (λ m. result.now ≡ m.journal) }
        ensures history { InItsStates T.Tables self.now IsSomeHistory }
    {
        self.parts.log.entries()
    }

    /// The effective turns so far.
    pub fn trace(&self) -> &[Event]
        ensures { result.now ≡ self.now.parts.log.events }
    {
        self.parts.log.events()
    }

    /// The script that the machine runs.
    pub fn script(&self) -> &Script
        ensures { result.now ≡ self.now.script }
    {
        &self.script
    }

    /// The tables, in place of the machine.
    pub fn tables_out(self) -> T
        ensures { result ≡ self.parts.tables }
    {
        let Machine { parts, .. } = self;
        let Parts { tables, .. } = parts;
        tables
    }
}

impl<M: Medium> Machine<PlainTables, M> {
    /// One turn of an actor. After an error the machine is as before the turn.
    pub fn step(&mut self, actor: Actor) -> Result<Turn, OutOfMemory>
        requires { IsActor (state_of self.old) actor }
        ensures answer { IfOk result (λ turn. turn ≡ answer_of (state_of self.old) actor) }
        ensures ok { OnOk result (shown self.new ≡ stepped (shown self.old) actor) }
        ensures rest { IfOk result (λ turn. LowersRest turn (state_of self.old) (state_of self.new)) }
        ensures err { OnErr result (shown self.new ≡ shown self.old) }
    {
        let turn = self.parts.step(&self.script, actor)?;
        self.parts.log.pass();
        Ok(turn)
    }
}

impl Machine<PlainTables, Plain> {
    /// The volume as the turns have left it, the journal and the trace, in place of the machine.
    pub fn into_run(self) -> Result<Run, OutOfMemory>
        ensures { IfOk result (λ run. IsLeft (shown self) run) }
    {
        let Machine { parts, .. } = self;
        let Parts {
            alloc,
            disk,
            log,
            ..
        } = parts;
        let total = disk.fs().total();
        let inodes = copy_inodes(alloc, disk.fs().inodes())?;
        let (journal, trace) = log.into_lists();
        Ok(Run {
            volume: Volume {
                total,
                inodes,
                bytes: disk.into_medium().into_bytes(),
            },
            journal,
            trace,
        })
    }
}

/// So many processes before their first turn.
fn new_processes<P: Drop>(alloc: Global, count: usize) -> Result<Vec<Process<P>>, OutOfMemory>
    ensures count { IfOk result (λ processes. length processes.items ≡ count) }
    ensures new { IfOk result (λ processes. All IsNew processes.items) }
{
    let mut processes = Vec::with_capacity(alloc, count)?;
    for _process in 0..count {
        processes.push(Process::new(alloc)?)?;
    }
    Ok(processes)
}

impl<T: Tables, M: Medium> Parts<T, M> {
    /// One turn of the invalidation engine. No call that is built posts a request.
    pub(crate) fn step_invalidation(&mut self, script: &Script) -> Result<Turn, OutOfMemory>
        ghost m: { State }
        requires state { IsAt T.Tables script.now self.old m }
        ensures ok { IfOk result (λ turn. TookTurn T.Tables script.now self.old self.new m
            (2 * length script.now.processes) turn) }
        ensures err { OnErr result (StaysAt T.Tables script.now self.old self.new m) }
    {
        let _script = script;
        Ok(Turn::Idle)
    }
}

impl<M: Medium> Parts<PlainTables, M> {
    /// One turn of an actor.
    fn step(&mut self, script: &Script, actor: Actor) -> Result<Turn, OutOfMemory>
        ghost m: { State }
        requires state { IsAt plain_sides script.now self.old m }
        requires actor { IsActor m actor }
        ensures ok { IfOk result (λ turn. TookTurn plain_sides script.now self.old self.new m actor turn) }
        ensures err { OnErr result (StaysAt plain_sides script.now self.old self.new m) }
    {
        let count = self.processes.len() as u64;
        let number = actor.get();
        if number < count {
            return self.step_processor(script, Pid::new(number).unwrap());
        }
        if number < 2 * count {
            return self.step_engine(script, Pid::new(number - count).unwrap());
        }
        self.step_invalidation(script)
    }
}
