//! The turns of device engines that walk over tables for one thread.
ghost use Rattle.std.specs.Prelude.{◌≡◌, ◌<◌, ◌≤◌, ◌+◌, IfOk, IsSome, None, OnErr, Option, Some, length, true};
ghost use Rattle.bd_base.specs.declared.key.Cell.{Cell};
ghost use Rattle.bd_base.specs.declared.limits.TheConstants.{PROCESSES};
ghost use Rattle.bd_machine.specs.declared.process.Phase.TheVariants.{Completing, Filling, Looking, Missing, Moving, Reading, Retiring, Taken};
ghost use Rattle.bd_machine.specs.Engines.{Becomes, HasNoCommand, IsFree, IsMissing, IsMoving, IsThere, IsWorking, KeepsPass, StepsIfAny, TakesStep};
ghost use Rattle.bd_machine.specs.Logs.{HasRoom};
ghost use Rattle.bd_machine.specs.Turns.{IsAt, Sight, StaysAt, TookTurn, process_in};
ghost use Rattle.bd_machine.specs.Shows.{phase_of, plain_sides};
ghost use Rattle.bd_tables.specs.Plain.{looked_of, walked_of};
ghost use Rattle.bd_turns.specs.Engines.{phase_after, phase_looked};
ghost use Rattle.bd_turns.specs.State as turns;
ghost use Rattle.bd_turns.specs.State.{State};

use crate::parts::Parts;
use crate::process::Phase;
use bd_base::{Actor, BlockNo, Found, OutOfMemory, Pid, Script, Steps};
use bd_medium::Medium;
use bd_tables::{EngineSide, Looked, PlainPass, PlainTables, Tables, Walked};
use bd_turns::{Row, Turn};
use std::marker::Brand;
use std::sync::ledger::{Blank, Ledger};

/// What was found in place of what a step of a walk asked for.
fn found_of(walked: Walked) -> Option<Found>
    ensures { walked ≡ walked_of result }
{
    match walked {
        Walked::Granted => None,
        Walked::Missed(found) => Some(found),
    }
}

/// What an engine does after a step that found this in place of what it asked for, or nothing amiss.
fn phase_after(found: Option<Found>, next: Phase) -> Phase
    ensures { (usual : turns.Phase)
        → phase_of next ≡ Some usual → phase_of result ≡ Some (phase_after found usual) }
{
    match found {
        None => next,
        Some(_) => Phase::Missing,
    }
}

/// What an engine does after a look.
fn phase_looked(looked: Looked) -> Phase
    ensures { (cell : Option Cell) → looked ≡ looked_of cell → phase_of result ≡ Some (phase_looked cell) }
{
    match looked {
        Looked::Hit => Phase::Moving,
        Looked::Miss => Phase::Reading,
    }
}

/// What stands in a slot, which is empty afterwards.
fn taken<P>(slot: &mut Option<P>) -> P
    requires { IsSome slot.old }
    ensures value { Some result ≡ slot.old }
    ensures empty { slot.new ≡ None }
{
    slot.take().unwrap()
}

impl<M: Medium> Parts<PlainTables, M> {
    /// One turn of a device engine. One that has nothing to do takes no memory.
    pub(crate) fn step_engine(&mut self, script: &Script, q: Pid) -> Result<Turn, OutOfMemory>
        ghost m: { State }
        requires state { IsAt plain_sides script.now self.old m }
        requires process { q < length script.now.processes }
        ensures ok { IfOk result
            (λ turn. TookTurn plain_sides script.now self.old self.new m (length script.now.processes + q) turn) }
        ensures err { OnErr result (StaysAt plain_sides script.now self.old self.new m) }
    {
        if self.has_no_command(q) {
            return Ok(Turn::Idle);
        }
        self.work(script, q)
    }

    /// Whether the engine has no command in hand, and none is submitted.
    fn has_no_command(&self, q: Pid) -> bool
        requires { q < length self.now.processes.items }
        ensures { result ≡ true → HasNoCommand self.now q }
    {
        let it = &self.processes[q.get() as usize];
        it.hand.is_none() && !it.queue.has_submitted()
    }

    /// One turn of a device engine, for which there is room in the log first.
    #[tactic(auto, using(crate::proofs::EngineTurns::shows_log))]
    fn work(&mut self, script: &Script, q: Pid) -> Result<Turn, OutOfMemory>
        ghost m: { State }
        requires state { IsAt plain_sides script.now self.old m }
        requires process { q < length script.now.processes }
        ensures ok { IfOk result
            (λ turn. TookTurn plain_sides script.now self.old self.new m (length script.now.processes + q) turn) }
        ensures err { OnErr result (StaysAt plain_sides script.now self.old self.new m) }
    {
        self.log.reserve()?;
        self.engine_turn::<Brand>(script, q, Blank::new(1))
    }

    /// The engine of the process as an actor.
    fn engine(&self, q: Pid) -> Actor
        requires { length self.now.processes.items ≤ PROCESSES }
        ensures { result ≡ length self.now.processes.items + q }
    {
        Actor::new(self.processes.len() as u64 + q.get()).unwrap()
    }

    /// The same turn, with room in the log.
    fn engine_turn<L: Ledger>(
        &mut self,
        script: &Script,
        q: Pid,
        blank: Blank,
    ) -> Result<Turn, OutOfMemory>
        ghost m: { State }
        requires name { blank.name ≡ L.name }
        requires parts { blank.parts ≡ L.parts }
        requires some { 0 < blank.parts }
        requires state { IsAt plain_sides script.now self.old m }
        requires process { q < length script.now.processes }
        requires room { HasRoom self.old.log }
        ensures ok { IfOk result
            (λ turn. TookTurn plain_sides script.now self.old self.new m (length script.now.processes + q) turn) }
        ensures err { OnErr result (StaysAt plain_sides script.now self.old self.new m) }
    {
        let mut steps = Steps::<L>::open(blank);
        match self.take_step(script, q, &mut steps)? {
            None => Ok(Turn::Idle),
            Some(row) => {
                let actor = self.engine(q);
                Ok(self.end_turn(q, actor, row))
            }
        }
    }

    /// What the engine does next, but for the end of its turn: the row of the step; None where it has nothing to do.
    fn take_step<L: Ledger>(
        &mut self,
        script: &Script,
        q: Pid,
        steps: &mut Steps<L>,
    ) -> Result<Option<Row>, OutOfMemory>
        ghost m: { State }
        requires state { IsAt plain_sides script.now self.old m }
        requires process { q < length script.now.processes }
        requires room { HasRoom self.old.log }
        ensures ok { IfOk result
            (λ row. StepsIfAny plain_sides (record { script = script.now; state = m }) self.old self.new q row) }
        ensures err { OnErr result (StaysAt plain_sides script.now self.old self.new m) }
    {
        let it = &self.processes[q.get() as usize];
        if it.hand.is_none() {
            return Ok(self.begin_walk(q, steps));
        }
        match it.phase {
            Phase::Taken => Ok(Some(self.enter(q, steps))),
            Phase::Looking => Ok(Some(self.look(q, steps))),
            Phase::Reading => Ok(Some(self.read_entry(q, steps))),
            Phase::Filling => Ok(Some(self.fill(q, steps))),
            Phase::Moving => {
                let row = self.move_block(script, q)?;
                Ok(Some(row))
            }
            Phase::Missing => Ok(Some(self.note_found(q))),
            Phase::Retiring => Ok(Some(self.retire(q, steps))),
            Phase::Completing => Ok(Some(self.finish(q))),
        }
    }

    /// The pass of an engine that walks, which is not kept meanwhile.
    fn pass(&mut self, q: Pid) -> PlainPass
        requires { KeepsPass self.old q }
        ensures { (y : _) → process_in self.old q ≡ Some y
            → (Some result ≡ y.pass) × Becomes self.old self.new q self.old.tables (record y { pass = None }) }
    {
        taken(&mut self.processes[q.get() as usize].pass)
    }

    /// The engine has its pass again, and this phase next.
    fn goes_on(&mut self, q: Pid, pass: PlainPass, phase: Phase)
        requires { IsThere self.old q }
        ensures { (y : _) → process_in self.old q ≡ Some y
            → Becomes self.old self.new q self.old.tables (record y { pass = Some pass; phase = phase }) }
    {
        let it = &mut self.processes[q.get() as usize];
        it.pass = Some(pass);
        it.phase = phase;
    }

    /// The engine has this phase next.
    fn comes_to(&mut self, q: Pid, phase: Phase)
        requires { IsThere self.old q }
        ensures { (y : _) → process_in self.old q ≡ Some y
            → Becomes self.old self.new q self.old.tables (record y { phase = phase }) }
    {
        self.processes[q.get() as usize].phase = phase;
    }

    /// The oldest command is taken, and its engine enters its key; None where there is none.
    fn begin_walk<L: Ledger>(&mut self, q: Pid, steps: &mut Steps<L>) -> Option<Row>
        ghost g: { Sight }
        requires free { IsFree plain_sides g self.old q }
        requires room { HasRoom self.old.log }
        ensures { StepsIfAny plain_sides g self.old self.new q result }
    {
        if self.take(q).is_none() {
            return None;
        }
        Some(self.enter(q, steps))
    }

    /// The engine enters the key of the command in its hand.
    fn enter<L: Ledger>(&mut self, q: Pid, steps: &mut Steps<L>) -> Row
        ghost g: { Sight }
        requires { IsWorking plain_sides g self.old q Taken }
        ensures { TakesStep plain_sides g self.old self.new q result }
    {
        let request = self.request_in_hand(q);
        let pass = self.tables.lend(q);
        let (pass, walked) = self.tables.enter(pass, request, steps);
        let found = found_of(walked);
        self.goes_on(q, pass, phase_after(found, Phase::Looking));
        Row::Enter(found)
    }

    /// The block that the translation of the engine names.
    fn block_told(&self, q: Pid) -> BlockNo
        ghost g: { Sight }
        requires { IsWorking plain_sides g self.now q Moving }
        ensures { IsMoving plain_sides g self.now q result }
    {
        let pass = self.processes[q.get() as usize].pass.as_ref().unwrap();
        self.tables.told(pass).unwrap().block
    }

    /// What the walk of the engine found in place of what it asked for.
    fn found(&self, q: Pid) -> Found
        ghost g: { Sight }
        requires { IsWorking plain_sides g self.now q Missing }
        ensures { IsMissing plain_sides g self.now q result }
    {
        let pass = self.processes[q.get() as usize].pass.as_ref().unwrap();
        self.tables.found(pass).unwrap()
    }

    /// The engine looks into the line of its address.
    fn look<L: Ledger>(&mut self, q: Pid, steps: &mut Steps<L>) -> Row
        ghost g: { Sight }
        requires { IsWorking plain_sides g self.old q Looking }
        ensures { TakesStep plain_sides g self.old self.new q result }
    {
        let pass = self.pass(q);
        let (pass, looked) = self.tables.look(pass, steps);
        self.goes_on(q, pass, phase_looked(looked));
        Row::Look(looked)
    }

    /// The engine reads the entry of its block.
    fn read_entry<L: Ledger>(&mut self, q: Pid, steps: &mut Steps<L>) -> Row
        ghost g: { Sight }
        requires { IsWorking plain_sides g self.old q Reading }
        ensures { TakesStep plain_sides g self.old self.new q result }
    {
        let pass = self.pass(q);
        let (pass, walked) = self.tables.read_entry(pass, steps);
        let found = found_of(walked);
        self.goes_on(q, pass, phase_after(found, Phase::Filling));
        Row::ReadEntry(found)
    }

    /// The translation is put into the line of its address.
    fn fill<L: Ledger>(&mut self, q: Pid, steps: &mut Steps<L>) -> Row
        ghost g: { Sight }
        requires { IsWorking plain_sides g self.old q Filling }
        ensures { TakesStep plain_sides g self.old self.new q result }
    {
        let pass = self.pass(q);
        let pass = self.tables.fill(pass, steps);
        self.goes_on(q, pass, Phase::Moving);
        Row::Fill
    }

    /// The engine leaves its key.
    fn retire<L: Ledger>(&mut self, q: Pid, steps: &mut Steps<L>) -> Row
        ghost g: { Sight }
        requires { IsWorking plain_sides g self.old q Retiring }
        ensures { TakesStep plain_sides g self.old self.new q result }
    {
        let pass = self.pass(q);
        let pass = self.tables.retire(pass, steps);
        self.tables.take_back(pass);
        self.comes_to(q, Phase::Completing);
        Row::Retire
    }

    /// The bytes of the command in hand are moved, by the translation that its engine holds.
    fn move_block(&mut self, script: &Script, q: Pid) -> Result<Row, OutOfMemory>
        ghost m: { State }
        requires { IsWorking plain_sides (record { script = script.now; state = m }) self.old q Moving }
        ensures ok { IfOk result
            (λ row. TakesStep plain_sides (record { script = script.now; state = m }) self.old self.new q row) }
        ensures err { OnErr result (StaysAt plain_sides script.now self.old self.new m) }
    {
        let block = self.block_told(q);
        self.move_in_hand(script, q, block)?;
        Ok(Row::Move)
    }

    /// What the walk found is noted.
    fn note_found(&mut self, q: Pid) -> Row
        ghost g: { Sight }
        requires { IsWorking plain_sides g self.old q Missing }
        ensures { TakesStep plain_sides g self.old self.new q result }
    {
        let found = self.found(q);
        self.miss_in_hand(q, found);
        Row::Missed
    }

    /// The completion of the command in hand is given back.
    fn finish(&mut self, q: Pid) -> Row
        ghost g: { Sight }
        requires { IsWorking plain_sides g self.old q Completing }
        ensures { TakesStep plain_sides g self.old self.new q result }
    {
        self.complete(q);
        Row::Complete
    }
}
