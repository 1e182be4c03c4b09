//! Whole runs: by the schedule, and then in rounds.
ghost use Rattle.std.specs.Prelude.{◌≡◌, ◌+◌, ◌<◌, IfOk, OnOk, length, slice_get};
ghost use Rattle.bd_base.specs.Scripts.{IsWithinLimits};
ghost use Rattle.bd_base.specs.Volumes.{IsSoundVolume};
ghost use Rattle.bd_machine.specs.Machine.{HasRun, shown, state_of, stepped};
ghost use Rattle.bd_machine.specs.Tasks.{IsAtEnd, IsItemAt, IsTask, ItemAt, Task, after_turns, turns_before};
ghost use Rattle.bd_machine.specs.Turns.{AreBuilt};
ghost use Rattle.bd_turns.specs.Course.{scheduled};
ghost use Rattle.bd_turns.specs.Reached.{IsActor};

use crate::machine::Machine;
use bd_base::{Actor, Item, OutOfMemory, ScheduleLine, Script, Volume};
use bd_medium::Plain;
use bd_tables::PlainTables;
use std::alloc::Global;

/// A machine over tables for one thread and a device in memory.
pub type PlainMachine = Machine<PlainTables, Plain>;

/// Runs the script over the volume: it takes the turns of the schedule, and then turns in rounds until all calls have
/// ended. The only error is that no memory is found.
pub fn replay(alloc: Global, volume: Volume, script: Script) -> Result<PlainMachine, OutOfMemory>
    requires volume { IsSoundVolume volume }
    requires script { IsWithinLimits script }
    requires built { AreBuilt script }
    ensures { IfOk result (λ machine. HasRun volume script (shown machine)) }
{
    let Volume {
        total,
        inodes,
        bytes,
    } = volume;
    let tables = PlainTables::new(alloc, script.processes.len() as u8)?;
    let mut machine = Machine::boot(alloc, total, inodes, script, tables, Plain::new(bytes))?;
    run(&mut machine)?;
    Ok(machine)
}

/// Takes all turns.
fn run(machine: &mut PlainMachine) -> Result<(), OutOfMemory>
    ghost task: { Task }
    requires task { IsTask task }
    requires booted { shown machine.old ≡ after_turns task 0 }
    ensures { OnOk result (IsAtEnd task (shown machine.new)) }
{
    take_scheduled(machine)?;
    take_rounds(machine)?;
    Ok(())
}

/// Takes the turns of the schedule.
fn take_scheduled(machine: &mut PlainMachine) -> Result<(), OutOfMemory>
    ghost task: { Task }
    requires task { IsTask task }
    requires booted { shown machine.old ≡ after_turns task 0 }
    ensures { OnOk result (shown machine.new ≡ after_turns task (length (scheduled task.script))) }
{
    for line in 0..machine.script().schedule.len() {
        take_line(machine, line)?;
    }
    Ok(())
}

/// Takes the turns of a line of the schedule.
fn take_line(machine: &mut PlainMachine, line: usize) -> Result<(), OutOfMemory>
    ghost task: { Task }
    requires task { IsTask task }
    requires within { line < length task.script.schedule }
    requires before { shown machine.old ≡ after_turns task (turns_before task.script line) }
    ensures { OnOk result (shown machine.new ≡ after_turns task (turns_before task.script (line + 1))) }
{
    for number in 0..line_of(machine, line).items.len() {
        let item = line_of(machine, line).items.as_slice()[number];
        take_turns(machine, item)?;
    }
    Ok(())
}

/// A line of the schedule.
fn line_of(machine: &PlainMachine, line: usize) -> &ScheduleLine
    requires { line < length (state_of machine.now).script.schedule }
    ensures { slice_get (state_of machine.now).script.schedule line ≡ Some result.now }
{
    &machine.script().schedule.as_slice()[line]
}

/// Takes the turns of an item.
fn take_turns(machine: &mut PlainMachine, item: Item) -> Result<(), OutOfMemory>
    ghost g: { ItemAt }
    requires item { IsItemAt g item }
    requires before { shown machine.old ≡ after_turns g.task g.turns }
    ensures { OnOk result (shown machine.new ≡ after_turns g.task (g.turns + item.turns)) }
{
    for _turn in 0..item.turns {
        take_turn(machine, item.actor)?;
    }
    Ok(())
}

/// Takes turns in rounds, until all calls have ended.
fn take_rounds(machine: &mut PlainMachine) -> Result<(), OutOfMemory>
    ghost task: { Task }
    requires task { IsTask task }
    requires scheduled { shown machine.old ≡ after_turns task (length (scheduled task.script)) }
    ensures { OnOk result (IsAtEnd task (shown machine.new)) }
{
    let actors = 2 * machine.script().processes.len() as u64 + 1;
    let mut next = 0;
    while !machine.finished() {
        take_turn(machine, Actor::new(next).unwrap())?;
        next = (next + 1) % actors;
    }
    Ok(())
}

/// Takes a turn of an actor, whatever it answers.
fn take_turn(machine: &mut PlainMachine, actor: Actor) -> Result<(), OutOfMemory>
    requires { IsActor (state_of machine.old) actor }
    ensures { OnOk result (shown machine.new ≡ stepped (shown machine.old) actor) }
{
    match machine.step(actor) {
        Ok(_turn) => Ok(()),
        Err(error) => Err(error),
    }
}
