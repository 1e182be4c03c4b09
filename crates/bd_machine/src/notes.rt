//! What each effective turn leaves behind beside its own change: its entry, its event, and how far its call is.
ghost use Rattle.std.specs.Prelude.{◌≡◌, ◌<◌, None, Some, length, slice_index_or};
ghost use Rattle.bd_kernel.specs.Marks.{HasPieceOf};
ghost use Rattle.bd_machine.specs.Turns.{AreFew, CountsTurn, EndsTurn, HasBegun, MayHold, NotesEntry, process_in, with_hold};
ghost use Rattle.bd_turns.specs.declared.turn.Turn.TheVariants.{Did};

use crate::parts::Parts;
use bd_base::{Actor, At, FileId, Pid};
use bd_entry::Entry;
use bd_kernel::tells_size;
use bd_medium::Medium;
use bd_tables::Tables;
use bd_turns::{Event, Row, Turn};

impl<T: Tables, M: Medium> Parts<T, M> {
    /// Where the running call of the process is in the script.
    pub(crate) fn at(&self, p: Pid) -> At
        requires { p < length self.now.processes.items }
        ensures { (y : _) → process_in self.now p ≡ Some y
            → result ≡ record { process = p; call = y.ended } }
    {
        At {
            process: p,
            call: self.processes[p.get() as usize].ended,
        }
    }

    /// The running call of the process takes note of an entry. The process is told the size that the entry tells, and
    /// knows it once the entry ends the call.
    pub(crate) fn note(&mut self, process: Pid, entry: &Entry)
        requires begun { HasBegun self.old process }
        requires piece { HasPieceOf entry.now }
        ensures { NotesEntry self.old self.new process entry.now }
    {
        let running = self.processes[process.get() as usize]
            .call
            .as_mut()
            .unwrap();
        running.note(entry);
        if let Some(fd) = running.fd() {
            if tells_size(entry) {
                self.disk.tell(process, fd);
            }
            if running.finished() {
                self.disk.know(process, fd);
            }
        }
    }

    /// The process holds this file, or none.
    pub(crate) fn hold(&mut self, process: Pid, file: Option<FileId>)
        requires process { process < length self.old.disk.held }
        requires free { MayHold self.old.disk.held process file }
        ensures { self.new ≡ with_hold self.old process file }
    {
        match file {
            None => self.disk.give_up(process),
            Some(file) => {
                if self.disk.descriptors().holder(file).is_none() {
                    self.disk.hold(process, file);
                }
            }
        }
    }

    /// An effective turn of the actor in the name of the running call of a process is counted and told. Where it ends the
    /// call, the process holds nothing.
    pub(crate) fn end_turn(&mut self, process: Pid, actor: Actor, row: Row) -> Turn
        requires begun { HasBegun self.old process }
        requires holder { process < length self.old.disk.held }
        requires few { AreFew self.old process }
        requires room { 0 < self.old.log.event_room }
        ensures answer { result ≡ Did row }
        ensures ends { EndsTurn self.old self.new process actor row }
    {
        let event = Event {
            turn: self.log.turns(),
            actor,
            row,
        };
        self.log.tell(event);
        self.count_turn(process);
        Turn::Did(row)
    }

    /// An effective turn in the name of the running call of a process is counted. Where it ends the call, the process
    /// holds nothing.
    pub(crate) fn count_turn(&mut self, process: Pid)
        requires begun { HasBegun self.old process }
        requires holder { process < length self.old.disk.held }
        requires few { AreFew self.old process }
        ensures { CountsTurn self.old self.new process }
    {
        let it = &mut self.processes[process.get() as usize];
        if it.call.as_ref().unwrap().ended() {
            it.ended += 1;
            it.used = 0;
            it.call = None;
            self.disk.give_up(process);
        } else {
            it.used += 1;
        }
    }
}
