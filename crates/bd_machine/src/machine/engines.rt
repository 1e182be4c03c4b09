//! What the engine of a process asks of the machine, over any tables, with whatever pass it walks.
ghost use Rattle.std.specs.Prelude.{◌≡◌, ◌↔◌, ◌<◌, IfOk, IfSome, None, OnErr, OnOk, Some, is_none, length, true};
ghost use Rattle.bd_base.specs.declared.journal.Found.{Found};
ghost use Rattle.bd_machine.specs.declared.process.Hand.{Hand};
ghost use Rattle.bd_machine.specs.Asked.{IsInPhaseAt, IsPassOf, IsRefusedAt, IsSameState, IsTaken, IsToldOfHand, IsWalkOf, Miss, TookRow, engine_of};
ghost use Rattle.bd_machine.specs.Engines.{MayNoteAt, OnAgain, OnNoted};
ghost use Rattle.bd_machine.specs.Machine.{IsShown};
ghost use Rattle.bd_machine.specs.Turns.{process_in};
ghost use Rattle.bd_tables.specs.declared.state.Walk.TheVariants.{Idle};
ghost use Rattle.bd_tables.specs.State.{found_of};
ghost use Rattle.bd_turns.specs.declared.turn.Row.TheVariants.{Complete, Missed as Misses, Move};
ghost use Rattle.bd_turns.specs.State.{Completing, Missing, Moving, State};

use crate::machine::Machine;
use crate::told::{Fell, InHand};
use bd_base::{OutOfMemory, Pid};
use bd_medium::Medium;
use bd_tables::{Request, Tables};

impl<T: Tables, M: Medium> Machine<T, M> {
    /// The command in the hand of the engine of a process; None exactly where there is none.
    pub fn in_hand(&self, q: Pid) -> Option<InHand>
        requires { q < length self.now.script.processes }
        ensures { IsToldOfHand self.now q result }
    {
        self.parts.in_hand(q)
    }

    /// The engine takes its oldest command in hand, where it has none; what it asks of the tables for it is told. None
    /// exactly where no command is submitted. The state that is shown stays: the engine takes its turn as it enters.
    pub fn take(&mut self, q: Pid) -> Option<Request>
        ghost m: { State }
        requires process { q < length self.old.script.processes }
        requires state { IsShown T.Tables self.old m }
        requires free { IsToldOfHand self.old q None }
        ensures same { IsSameState T.Tables self.old self.new m }
        ensures told { IsTaken self.old self.new q result }
    {
        self.parts.take(q)
    }

    /// The block of the command in hand is moved, and the entry of its direct access added: the turn Move. The pass, which
    /// is translated for it, is given back. After an error the machine is as before.
    pub fn move_direct(&mut self, q: Pid, pass: T::Pass) -> (T::Pass, Result<(), OutOfMemory>)
        ghost m: { State }
        requires engine { IsInPhaseAt T.Tables self.old m q Moving }
        requires pass { IsPassOf T.Tables self.old q pass }
        requires walk { IsWalkOf T.Tables m q pass }
        ensures pass { result.0 ≡ pass }
        ensures ok { OnOk result.1 (TookRow T.Tables self.old self.new m (engine_of self.old q) Move) }
        ensures err { OnErr result.1 (IsSameState T.Tables self.old self.new m) }
    {
        let block = self.parts.tables.told(&pass).unwrap().block;
        let moved = self.parts.move_direct(&self.script, q, block);
        (pass, moved)
    }

    /// What the walk for the command in hand found is noted: the turn Missed. The pass, which was refused for it, is given
    /// back. Again comes exactly where the entry would break the rule of rights; then nothing changes, and the engine walks
    /// again. It never comes where the engine was refused in the state that the machine shows.
    pub fn missed(&mut self, q: Pid, pass: T::Pass) -> (T::Pass, Result<Fell, OutOfMemory>)
        ghost g: { Miss }
        requires engine { IsRefusedAt T.Tables self.old g.state q pass g.hand g.found }
        requires pass { IsPassOf T.Tables self.old q pass }
        ensures pass { result.0 ≡ pass }
        ensures noted { OnNoted result.1 (MayNoteAt g.state q g.hand g.found
            × TookRow T.Tables self.old self.new g.state (engine_of self.old q) Misses) }
        ensures again { OnAgain result.1 (λ found. (found ≡ g.found) × (¬ MayNoteAt g.state q g.hand g.found)
            × IsSameState T.Tables self.old self.new g.state) }
        ensures never { IsInPhaseAt T.Tables self.old g.state q Missing → IsWalkOf T.Tables g.state q pass
            → OnAgain result.1 (λ found. ⊥) }
        ensures err { OnErr result.1 (IsSameState T.Tables self.old self.new g.state) }
    {
        let found = self.parts.tables.found(&pass).unwrap();
        let fell = self.parts.missed(q, found);
        (pass, fell)
    }

    /// The command in hand, whose engine has retired, is completed: the turn Complete. The pass, which is idle, is given
    /// back.
    pub fn complete(&mut self, q: Pid, pass: T::Pass) -> T::Pass
        ghost m: { State }
        requires engine { IsInPhaseAt T.Tables self.old m q Completing }
        requires pass { IsPassOf T.Tables self.old q pass }
        requires idle { T.walk pass ≡ Idle }
        ensures pass { result ≡ pass }
        ensures took { TookRow T.Tables self.old self.new m (engine_of self.old q) Complete }
    {
        self.parts.complete_one(q);
        pass
    }
}
