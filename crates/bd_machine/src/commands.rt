//! Commands: how a device engine takes one, and what the machine does for it once its walk has come to its end.
ghost use Rattle.std.specs.Prelude.{◌≡◌, ◌↔◌, ◌<◌, IfOk, OnErr, OnOk, Some, None, length, true};
ghost use Rattle.std.specs.Option.{option_map};
ghost use Rattle.bd_machine.specs.declared.process.Hand.{Hand};
ghost use Rattle.bd_machine.specs.Engines.{Becomes, HasAnswer, HasCommand, HasInHand, IsInPhase, IsMissInHand, IsMissing, IsMoveInHand, IsMoveOf, IsMoving, IsThere, IsUnanswered, MayNoteAt, MoveAt, NamesBlock, OnAgain, OnNoted, TakesCommand, TakesStep, TookRowOf, in_hand_told, with_answer, without_command};
ghost use Rattle.bd_machine.specs.Shows.{request_of_command};
ghost use Rattle.bd_machine.specs.Turns.{Sight, StaysAt, process_in};
ghost use Rattle.bd_queue_pair.specs.declared.command.DoneKind.{DoneKind};
ghost use Rattle.bd_tables.specs.Kernel.{IsLimit};
ghost use Rattle.bd_tables.specs.State.{found_of, walk_at};
ghost use Rattle.bd_turns.specs.declared.turn.Row.TheVariants.{Complete, Missed as Misses, Move};
ghost use Rattle.bd_turns.specs.State.{Completing, Missing, Moving, State};

use crate::parts::Parts;
use crate::process::{Hand, Phase};
use crate::processor::call_at;
use crate::told::{Fell, InHand};
use bd_base::{
    At, BlockNo, Bytes, Call, FILE_BLOCKS, Fd, Found, Key, List, OutOfMemory, PART_BLOCKS, Part,
    Pid, Script, Way,
};
use bd_entry::Entry;
use bd_kernel::{Disk, bytes_for_piece};
use bd_medium::Medium;
use bd_pieces::Piece;
use bd_queue_pair::{Command, Done, DoneKind};
use bd_tables::{Request, Tables};
use std::alloc::Global;

/// What the engine of a process asks of the tables for a command.
pub(crate) fn request_of(q: Pid, command: &Command) -> Request
    ensures request { result ≡ request_of_command q command.now }
    ensures hi { IsLimit result.hi }
{
    let index = command.vba.get() % FILE_BLOCKS;
    Request {
        key: Key {
            process: q,
            fd: Fd::new(command.vba.get() / FILE_BLOCKS).unwrap(),
            part: Part::new(index / PART_BLOCKS).unwrap(),
        },
        index: index as u32,
        hi: command.range.hi,
        write: command.wrote,
    }
}

/// The entry of the direct access of a command on this block.
fn move_entry<M: Medium>(
    alloc: Global,
    disk: &Disk<M>,
    call: &Call,
    at: At,
    command: &Command,
    block: BlockNo,
) -> Result<Entry, OutOfMemory>
    ghost g: { MoveAt }
    requires { IsMoveOf disk.now call.now at command.now block g }
    ensures { IfOk result (λ entry. entry ≡ g.entry) }
{
    let request = request_of(at.process, command);
    let fd = request.key.fd;
    let file = disk
        .descriptors()
        .get(at.process, fd.get() as u8)
        .unwrap()
        .file;
    let cut = Piece {
        index: request.index,
        range: command.range,
    };
    let bytes: Bytes = if command.wrote {
        List::from_slice(alloc, bytes_for_piece(call, cut))?
    } else {
        disk.read(block, command.range)?
    };
    Ok(Entry::Access {
        at,
        piece: command.piece,
        fd,
        file,
        index: request.index,
        block: Some(block),
        range: command.range,
        wrote: command.wrote,
        way: Way::Direct,
        bytes,
    })
}

impl<T: Tables, M: Medium> Parts<T, M> {
    /// The oldest command is taken in hand, and what its engine asks of the tables for it is told; None where there is no
    /// command.
    pub(crate) fn take(&mut self, q: Pid) -> Option<Request>
        requires { IsThere self.old q }
        ensures { (y : _) → process_in self.old q ≡ Some y → TakesCommand self.old self.new q y result }
    {
        let it = &mut self.processes[q.get() as usize];
        let Some(command) = it.queue.take() else {
            return None;
        };
        let request = request_of(q, &command);
        it.hand = Some(Hand {
            command,
            outcome: None,
        });
        it.phase = Phase::Taken;
        Some(request)
    }

    /// What the engine asks of the tables for the command in its hand.
    pub(crate) fn request_in_hand(&self, q: Pid) -> Request
        requires { HasCommand self.now q }
        ensures request { (y : _) (hand : Hand) → process_in self.now q ≡ Some y → y.hand ≡ Some hand
            → result ≡ request_of_command q hand.command }
        ensures hi { IsLimit result.hi }
    {
        let hand = self.processes[q.get() as usize].hand.as_ref().unwrap();
        request_of(q, &hand.command)
    }

    /// What is told of the command in the hand of an engine.
    pub(crate) fn in_hand(&self, q: Pid) -> Option<InHand>
        requires { q < length self.now.processes.items }
        ensures { (y : _) → process_in self.now q ≡ Some y → result ≡ option_map (in_hand_told q) y.hand }
    {
        let hand = self.processes[q.get() as usize].hand.as_ref()?;
        Some(InHand {
            request: request_of(q, &hand.command),
            answered: hand.outcome.is_some(),
        })
    }

    /// The entry of the direct access of the command in hand on this block, which its engine's translation names.
    fn entry_in_hand(&self, script: &Script, q: Pid, block: BlockNo) -> Result<Entry, OutOfMemory>
        ghost m: { State }
        requires { IsMoving T.Tables (record { script = script.now; state = m }) self.now q block }
        ensures { IfOk result (λ entry. IsMoveInHand m q entry) }
    {
        let call = call_at(script, self.at(q));
        let at = self.at(q);
        let it = &self.processes[q.get() as usize];
        let command = &it.hand.as_ref().unwrap().command;
        move_entry(self.alloc, &self.disk, call, at, command, block)
    }

    /// The bytes of the command in hand are moved to or from this block, which its engine's translation names.
    pub(crate) fn move_in_hand(
        &mut self,
        script: &Script,
        q: Pid,
        block: BlockNo,
    ) -> Result<(), OutOfMemory>
        ghost m: { State }
        requires { IsMoving T.Tables (record { script = script.now; state = m }) self.old q block }
        ensures ok { OnOk result
            (TakesStep T.Tables (record { script = script.now; state = m }) self.old self.new q Move) }
        ensures err { OnErr result (StaysAt T.Tables script.now self.old self.new m) }
    {
        let entry = self.entry_in_hand(script, q, block)?;
        let uid = script.processes.as_slice()[q.get() as usize].uid;
        self.disk.change(&entry, uid)?;
        self.note(q, &entry);
        self.log.add(entry);
        self.answer(q, DoneKind::Moved);
        Ok(())
    }

    /// The entry that tells of what the walk for the command in hand found.
    fn miss_entry(&self, q: Pid, found: Found) -> Entry
        ghost g: { Sight }
        requires { IsMissing T.Tables g self.now q found }
        ensures { IsMissInHand g.state q found result }
    {
        let at = self.at(q);
        let it = &self.processes[q.get() as usize];
        let piece = it.hand.as_ref().unwrap().command.piece;
        Entry::Missed { at, piece, found }
    }

    /// What the walk for the command in hand found is noted.
    pub(crate) fn miss_in_hand(&mut self, q: Pid, found: Found)
        ghost g: { Sight }
        requires { IsMissing T.Tables g self.old q found }
        ensures { TakesStep T.Tables g self.old self.new q Misses }
    {
        let entry = self.miss_entry(q, found);
        self.note(q, &entry);
        self.log.add(entry);
        self.answer(q, DoneKind::Missed(found));
    }

    /// What became of the command in hand is kept, and the engine retires next.
    fn answer(&mut self, q: Pid, kind: DoneKind)
        requires { HasCommand self.old q }
        ensures { (y : _) (hand : Hand) → process_in self.old q ≡ Some y → y.hand ≡ Some hand
            → Becomes self.old self.new q self.old.tables (with_answer y hand kind) }
    {
        let it = &mut self.processes[q.get() as usize];
        let hand = it.hand.as_mut().unwrap();
        hand.outcome = Some(kind);
        it.phase = Phase::Retiring;
    }

    /// The completion of the command in hand is given back.
    pub(crate) fn complete(&mut self, q: Pid)
        ghost g: { Sight }
        requires { IsInPhase T.Tables g self.old q Completing }
        ensures { TakesStep T.Tables g self.old self.new q Complete }
    {
        self.give_back(q);
    }

    /// The command in hand is completed with what became of it.
    fn give_back(&mut self, q: Pid)
        requires { HasAnswer self.old q }
        ensures { (y : _) (hand : Hand) (kind : DoneKind) → process_in self.old q ≡ Some y
            → y.hand ≡ Some hand → hand.outcome ≡ Some kind
            → Becomes self.old self.new q self.old.tables (without_command y hand.command kind) }
    {
        let it = &mut self.processes[q.get() as usize];
        let Hand { command, outcome } = it.hand.unwrap();
        it.hand = None;
        it.queue.complete(Done {
            piece: command.piece,
            outcome: outcome.unwrap(),
        });
    }

    /// The whole turn Move, for which memory is taken first.
    pub(crate) fn move_direct(
        &mut self,
        script: &Script,
        q: Pid,
        block: BlockNo,
    ) -> Result<(), OutOfMemory>
        ghost m: { State }
        requires engine { IsInPhase T.Tables (record { script = script.now; state = m }) self.old q Moving }
        requires told { NamesBlock m q block }
        ensures ok { OnOk result (TookRowOf T.Tables script.now self.old self.new m q Move) }
        ensures err { OnErr result (StaysAt T.Tables script.now self.old self.new m) }
    {
        self.log.reserve()?;
        self.move_in_hand(script, q, block)?;
        self.count_turn(q);
        Ok(())
    }

    /// Whether what the walk for the command in hand found may be noted.
    fn may_note(&self, q: Pid, found: Found) -> bool
        ghost g: { Sight }
        requires { IsUnanswered T.Tables g self.now q }
        ensures { (hand : Hand) → HasInHand self.now q hand
            → (result ≡ true) ↔ MayNoteAt g.state q hand found }
    {
        let it = &self.processes[q.get() as usize];
        let piece = it.hand.as_ref().unwrap().command.piece;
        let running = it.call.as_ref().unwrap();
        running.may_miss(self.disk.fs(), self.disk.descriptors(), piece, found)
    }

    /// The whole turn Missed, for which memory is taken first, or nothing where the entry would break the rule of rights.
    pub(crate) fn missed(&mut self, q: Pid, found: Found) -> Result<Fell, OutOfMemory>
        ghost g: { Sight }
        requires unanswered { IsUnanswered T.Tables g self.old q }
        requires walks { (hand : Hand) → HasInHand self.old q hand → MayNoteAt g.state q hand found
            → IsInPhase T.Tables g self.old q Missing × (found_of (walk_at g.state.tables.walks q) ≡ Some found) }
        ensures noted { OnNoted result ((hand : Hand) → HasInHand self.old q hand → MayNoteAt g.state q hand found
            × TookRowOf T.Tables g.script self.old self.new g.state q Misses) }
        ensures again { OnAgain result (λ told. (told ≡ found) × ((hand : Hand) → HasInHand self.old q hand
            → ¬ MayNoteAt g.state q hand found) × (self.new ≡ self.old)) }
        ensures err { OnErr result (StaysAt T.Tables g.script self.old self.new g.state) }
    {
        if !self.may_note(q, found) {
            return Ok(Fell::Again(found));
        }
        self.log.reserve()?;
        self.miss_in_hand(q, found);
        self.count_turn(q);
        Ok(Fell::Noted)
    }

    /// The whole turn Complete.
    pub(crate) fn complete_one(&mut self, q: Pid)
        ghost g: { Sight }
        requires { IsInPhase T.Tables g self.old q Completing }
        ensures { TookRowOf T.Tables g.script self.old self.new g.state q Complete }
    {
        self.complete(q);
        self.count_turn(q);
    }
}
