//! The turns of processors.
ghost use Rattle.std.specs.Prelude.{◌≡◌, ◌<◌, ◌≢◌, IfOk, IfSome, IsSome, OnErr, OnOk, Some, true, length};
ghost use Rattle.bd_base.specs.declared.limits.TheConstants.{DESCRIPTORS, FILE_BLOCKS};
ghost use Rattle.bd_base.specs.Pieces.{Piece};
ghost use Rattle.bd_base.specs.Scripts.{IsCall, IsWithinLimits};
ghost use Rattle.bd_entry.specs.declared.act.Act.TheVariants.{Poll, Submit as Submits};
ghost use Rattle.bd_entry.specs.Calls.{Place, call_at, fd_of, piece_of_call};
ghost use Rattle.bd_kernel.specs.declared.blocker.Blocker.TheVariants.{Completion};
ghost use Rattle.bd_machine.specs.declared.process.Process.{Process};
ghost use Rattle.bd_machine.specs.Shows.{IsCommandOf};
ghost use Rattle.bd_machine.specs.Turns.{AreCellsFor, AttachesByOpen, CanChangeTables, HasBegun, HasCompletion, IsAt, IsHeldAfter, IsNextAct, IsNextBlocker, IsRunning, IsUnbegun, PassesStay, Sight, StaysAt, TableChange, TookTurn, adds_entry, process_in, wait_of};
ghost use Rattle.bd_tables.specs.Seen.{ShowsAfter};
ghost use Rattle.bd_turns.specs.Processors.{row_of_entry};
ghost use Rattle.bd_turns.specs.State.{State};
ghost use Rattle.bd_turns.specs.Turns.{Waiting, holds_after, holds_throughout, may_write, outcome_of, tables_after};

use crate::cells::cells_of_part;
use crate::entries::entry_of_act;
use crate::parts::Parts;
use bd_base::{
    Actor, At, BLOCK_SIZE, Call, Cell, FILE_BLOCKS, FileId, Key, Mode, OutOfMemory, Pid, Script,
    Vba,
};
use bd_entry::{Act, Entry};
use bd_kernel::{Blocker, KernelCall, does_write, piece_of, size_of};
use bd_medium::Medium;
use bd_pieces::Piece;
use bd_queue_pair::Command;
use bd_tables::KernelSide;
use bd_turns::{Row, Turn, Wait};
use std::alloc::Global;

impl<T: KernelSide, M: Medium> Parts<T, M> {
    /// One turn of a processor.
    pub(crate) fn step_processor(&mut self, script: &Script, p: Pid) -> Result<Turn, OutOfMemory>
        ghost m: { State }
        requires state { IsAt T.Tables script.now self.old m }
        requires process { p < length script.now.processes }
        ensures ok { IfOk result (λ turn. TookTurn T.Tables script.now self.old self.new m p turn) }
        ensures err { OnErr result (StaysAt T.Tables script.now self.old self.new m) }
    {
        let calls = script.processes.as_slice()[p.get() as usize].calls.len();
        if usize::from(self.processes[p.get() as usize].ended) == calls {
            return Ok(Turn::Idle);
        }
        if let Some(wait) = self.wait(script, p) {
            return Ok(Turn::Waits(wait));
        }
        self.begin(script, p)?;
        match self.next_act(p) {
            // A turn that waits was answered above.
            Act::Busy(_, _) => unreachable!(),
            // No call that is built takes rights away.
            Act::Revoke(_) => unreachable!(),
            Act::Submit(piece) => self.submit(script, p, piece),
            Act::Poll => self.poll(p),
            act => self.carry_out(script, p, act),
        }
    }

    /// What the turn waits for, if it waits. No memory is taken and no action made for it.
    fn wait(&self, script: &Script, p: Pid) -> Option<Wait>
        ghost m: { State }
        requires state { IsAt T.Tables script.now self.now m }
        requires process { p < length script.now.processes }
        requires running { IsRunning m p }
        ensures { result ≡ wait_of m p }
    {
        let blocker = self.blocker(script, p)?;
        match blocker {
            Blocker::Holder(file, holder) => Some(Wait::Busy(file, holder)),
            Blocker::Completion => self.wait_for_completion(p),
        }
    }

    /// What the running call needs before it does anything else, if it needs anything.
    fn blocker(&self, script: &Script, p: Pid) -> Option<Blocker>
        ghost m: { State }
        requires state { IsAt T.Tables script.now self.now m }
        requires process { p < length script.now.processes }
        requires running { IsRunning m p }
        ensures blocker { IsNextBlocker m p result }
        ensures begun { result ≡ Some Completion → HasBegun self.now p }
    {
        match self.processes[p.get() as usize].call.as_ref() {
            Some(running) => running.blocker(self.disk.fs(), self.disk.descriptors()),
            None => self.first_blocker(script, p),
        }
    }

    /// The same of a call that is not begun: the holder of its file, or nothing.
    fn first_blocker(&self, script: &Script, p: Pid) -> Option<Blocker>
        ghost m: { State }
        requires state { IsAt T.Tables script.now self.now m }
        requires process { p < length script.now.processes }
        requires running { IsRunning m p }
        requires unbegun { IsUnbegun self.now p }
        ensures blocker { IsNextBlocker m p result }
        ensures holder { result ≢ Some Completion }
    {
        let call = call_at(script, self.at(p));
        let uid = script.processes.as_slice()[p.get() as usize].uid;
        KernelCall::first_blocker(self.disk.fs(), self.disk.descriptors(), call, p, uid)
    }

    /// What a turn waits for that needs a completion: that of the least piece outstanding, unless one has come.
    fn wait_for_completion(&self, p: Pid) -> Option<Wait>
        ghost g: { Sight }
        requires state { IsAt T.Tables g.script self.now g.state }
        requires begun { HasBegun self.now p }
        requires blocker { IsNextBlocker g.state p (Some Completion) }
        ensures { result ≡ wait_of g.state p }
    {
        let it = &self.processes[p.get() as usize];
        if it.queue.has_completed() {
            return None;
        }
        let running = it.call.as_ref().unwrap();
        Some(Wait::Completion(running.least_outstanding()))
    }

    /// The running call is begun, where it is not yet.
    fn begin(&mut self, script: &Script, p: Pid) -> Result<(), OutOfMemory>
        ghost m: { State }
        requires state { IsAt T.Tables script.now self.old m }
        requires process { p < length script.now.processes }
        requires running { IsRunning m p }
        ensures stays { StaysAt T.Tables script.now self.old self.new m }
        ensures begun { OnOk result (HasBegun self.new p) }
    {
        if self.processes[p.get() as usize].call.is_some() {
            return Ok(());
        }
        let call = call_at(script, self.at(p));
        let uid = script.processes.as_slice()[p.get() as usize].uid;
        let begun = KernelCall::begin(self.alloc, call, p, uid)?;
        self.processes[p.get() as usize].call = Some(begun);
        Ok(())
    }

    /// What the running call, which was begun, does next.
    fn next_act(&self, p: Pid) -> Act
        ghost g: { Sight }
        requires state { IsAt T.Tables g.script self.now g.state }
        requires begun { HasBegun self.now p }
        ensures { IsNextAct g.state p result }
    {
        let call = self.processes[p.get() as usize].call.as_ref().unwrap();
        call.next(self.disk.fs(), self.disk.descriptors()).unwrap()
    }

    /// The command of a piece is submitted.
    fn submit(&mut self, script: &Script, p: Pid, piece: u8) -> Result<Turn, OutOfMemory>
        ghost m: { State }
        requires state { IsAt T.Tables script.now self.old m }
        requires begun { HasBegun self.old p }
        requires act { IsNextAct m p (Submits piece) }
        ensures ok { IfOk result (λ turn. TookTurn T.Tables script.now self.old self.new m p turn) }
        ensures err { OnErr result (StaysAt T.Tables script.now self.old self.new m) }
    {
        self.log.reserve()?;
        let call = call_at(script, self.at(p));
        let it = &mut self.processes[p.get() as usize];
        let running = it.call.as_mut().unwrap();
        let command = command_of(call, running.fd().unwrap(), piece);
        it.queue.submit(command);
        running.submitted(piece);
        Ok(self.end_turn(p, processor(p), Row::Submit))
    }

    /// The oldest completion, which has come, is taken.
    fn poll(&mut self, p: Pid) -> Result<Turn, OutOfMemory>
        ghost g: { Sight }
        requires state { IsAt T.Tables g.script self.old g.state }
        requires begun { HasBegun self.old p }
        requires act { IsNextAct g.state p Poll }
        requires come { HasCompletion self.old p }
        ensures ok { IfOk result (λ turn. TookTurn T.Tables g.script self.old self.new g.state p turn) }
        ensures err { OnErr result (StaysAt T.Tables g.script self.old self.new g.state) }
    {
        self.log.reserve()?;
        let it = &mut self.processes[p.get() as usize];
        let running = it.call.as_mut().unwrap();
        let _done = it.queue.poll().unwrap();
        running.polled();
        Ok(self.end_turn(p, processor(p), Row::Poll))
    }

    /// An action that adds an entry is carried out.
    fn carry_out(&mut self, script: &Script, p: Pid, act: Act) -> Result<Turn, OutOfMemory>
        ghost m: { State }
        requires state { IsAt T.Tables script.now self.old m }
        requires begun { HasBegun self.old p }
        requires act { IsNextAct m p act }
        requires adds { adds_entry act ≡ true }
        ensures ok { IfOk result (λ turn. TookTurn T.Tables script.now self.old self.new m p turn) }
        ensures err { OnErr result (StaysAt T.Tables script.now self.old self.new m) }
    {
        self.log.reserve()?;
        let call = call_at(script, self.at(p));
        let uid = script.processes.as_slice()[p.get() as usize].uid;
        let running = self.processes[p.get() as usize].call.as_ref().unwrap();
        let entry = entry_of_act(self.alloc, &self.disk, call, self.at(p), running.fd(), &act)?;
        let row = row_of(&entry);
        let held = self.file_to_hold(call, p, row);
        let cells = self.cells_for(p, &entry)?;
        self.disk.change(&entry, uid)?;
        self.note(p, &entry);
        self.change_tables(&entry, cells.as_slice());
        self.log.add(entry);
        self.hold(p, held);
        Ok(self.end_turn(p, processor(p), row))
    }

    /// The file that the process holds after a turn of this row, unless its call ends.
    fn file_to_hold(&self, call: &Call, p: Pid, row: Row) -> Option<FileId>
        requires { HasBegun self.now p }
        ensures { IsHeldAfter self.now call.now p row result }
    {
        if !holds_after(call, row) {
            return None;
        }
        let running = self.processes[p.get() as usize].call.as_ref().unwrap();
        running.file(self.disk.fs(), self.disk.descriptors())
    }

    /// The cells of the part that the entry attaches a right on; none for another entry.
    fn cells_for(&self, p: Pid, entry: &Entry) -> Result<Vec<Cell>, OutOfMemory>
        requires { AttachesByOpen self.now.disk p entry.now }
        ensures { IfOk result (λ cells. AreCellsFor self.now.disk p entry.now cells.items) }
    {
        match entry {
            Entry::Attached { fd, part, .. } => {
                let descriptor = self.disk.descriptors().get(p, fd.get() as u8).unwrap();
                cells_of_part(self.alloc, &self.disk, descriptor.file, *part)
            }
            _ => Ok(Vec::new(self.alloc)),
        }
    }

    /// What the entry, which the disk shows already, changes in the tables.
    fn change_tables(&mut self, entry: &Entry, cells: &[Cell])
        ghost g: { TableChange }
        requires { CanChangeTables T.Tables self.old g entry.now cells.now }
        ensures shown { ShowsAfter T.shows self.old.tables self.new.tables
            (λ t. tables_after g.after t entry.now) }
        ensures same { self.new ≡ record self.old { tables = self.new.tables } }
        ensures passes { PassesStay T.Tables self.old.tables self.new.tables }
    {
        match entry {
            Entry::Attached { at, fd, part } => {
                let descriptor = self
                    .disk
                    .descriptors()
                    .get(at.process, fd.get() as u8)
                    .unwrap();
                let key = Key {
                    process: at.process,
                    fd: *fd,
                    part: *part,
                };
                let write = may_write(descriptor.mode);
                match self.tables.attach(key, descriptor.file, write, cells) {
                    Ok(()) => {}
                    Err(_) => unreachable!(),
                }
            }
            Entry::Extended {
                file,
                to,
                block,
                ..
            } => {
                let index = (*to - 1) / BLOCK_SIZE;
                let limit = (*to - BLOCK_SIZE * index) as u16;
                match block {
                    Some(block) => {
                        let cell = Cell {
                            block: *block,
                            limit,
                        };
                        self.tables.put_entry(*file, index as u32, cell);
                    }
                    None => self.tables.raise_limit(*file, index as u32, limit),
                }
            }
            _ => {}
        }
    }
}

/// The call of the script at this place, where it is there.
pub(crate) fn call_at(script: &Script, at: At) -> &Call
    requires { IsSome (call_at script.now at) }
    ensures { call_at script.now at ≡ Some result.now }
{
    let process = &script.processes.as_slice()[at.process.get() as usize];
    &process.calls.as_slice()[usize::from(at.call)]
}

/// The processor of a process as an actor.
fn processor(p: Pid) -> Actor
    ensures { result ≡ p }
{
    Actor::new(p.get()).unwrap()
}

/// The command of a piece of a call by this descriptor.
fn command_of(call: &Call, fd: u8, piece: u8) -> Command
    requires call { IsCall call.now }
    requires fd { fd < DESCRIPTORS }
    requires piece { (cut : Piece) × (piece_of_call call.now piece ≡ Some cut) × (cut.index < FILE_BLOCKS) }
    ensures command { (p : Place) → p.call ≡ call.now → fd_of p ≡ Some fd → IsCommandOf p result }
    ensures piece { result.piece ≡ piece }
{
    let cut = piece_of(call, piece).unwrap();
    Command {
        piece,
        vba: Vba::new(u64::from(fd) * FILE_BLOCKS + u64::from(cut.index)).unwrap(),
        range: cut.range,
        wrote: does_write(call),
    }
}

/// Whether a mode allows writing.
fn may_write(mode: Mode) -> bool
    ensures { result ≡ may_write mode }
{
    match mode {
        Mode::R => false,
        Mode::Rw => true,
    }
}

/// The row of the turn that adds an entry.
fn row_of(entry: &Entry) -> Row
    ensures { result ≡ row_of_entry entry.now }
{
    match entry {
        Entry::Opened { .. } => Row::Opened,
        Entry::Created { .. } => Row::Created,
        Entry::Attached { .. } => Row::Attach,
        Entry::Mapped { .. } => Row::Mapped,
        Entry::Cleared { .. } => Row::Clear,
        Entry::Detached { .. } => Row::DetachDone,
        Entry::Access { .. } => Row::KernelAccess,
        Entry::Missed { .. } => Row::Missed,
        Entry::Extended { .. } => Row::Extend,
        Entry::Released { .. } => Row::Release,
        Entry::Sized { .. } => Row::Sized,
        Entry::SizeRead { .. } => Row::SizeRead,
        Entry::Closed { .. } => Row::Closed,
        Entry::Unlinked { .. } => Row::Unlinked,
        Entry::Refused { .. } => Row::Refused,
    }
}

/// Whether a turn of this row leaves its process with a hold, unless the call ends.
fn holds_after(call: &Call, row: Row) -> bool
    ensures { result ≡ holds_after call.now row }
{
    matches!(row, Row::Extend) || holds_throughout(call)
}

/// Whether the call holds its file from its first effective turn to its last.
fn holds_throughout(call: &Call) -> bool
    ensures { result ≡ holds_throughout call.now }
{
    match call {
        Call::Enter { .. }
        | Call::Truncate { .. }
        | Call::Unlink { .. }
        | Call::Map { .. }
        | Call::Close { .. } => true,
        Call::Create { .. }
        | Call::Read { .. }
        | Call::Write { .. }
        | Call::Size { .. }
        | Call::RawRead { .. }
        | Call::RawWrite { .. } => false,
    }
}
