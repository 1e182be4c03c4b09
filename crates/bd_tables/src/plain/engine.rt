//! The engines' side of tables for one thread.
ghost use Rattle.std.specs.Prelude.{◌≡◌, ◌+◌, ◌/◌, None, Some};
ghost use Rattle.std.proofs.Common.{set};
ghost use Rattle.std.specs.FinMap as fin;
ghost use Rattle.bd_base.specs.declared.limits.TheConstants.{PART_BLOCKS};
ghost use Rattle.bd_lines.specs.Lines.{hit};
ghost use Rattle.bd_tables.specs.declared.request.Completion.{Completion};
ghost use Rattle.bd_tables.specs.declared.request.Request.{Request};
ghost use Rattle.bd_tables.specs.declared.state.Walk.TheVariants.{Idle, Entered, Translated};
ghost use Rattle.bd_tables.specs.Answers.{AfterEnter, AfterLook, AfterRead, GivesBack, IsAnswered, IsEntered, IsTranslated};
ghost use Rattle.bd_tables.specs.Effects.{enter, entered_walk, fill, look, looked_walk, read_entry, read_walk, retire};
ghost use Rattle.bd_tables.specs.Kernel.{IsLimit};
ghost use Rattle.bd_tables.specs.Passes.{IsLent, process_of_pass};
ghost use Rattle.bd_tables.specs.Plain.{kernel_of, looked_of, tables_of, walked_of};
ghost use Rattle.bd_tables.specs.State.{completion_of, found_entering, found_reading, lookup, request_of};

use super::{PlainPass, PlainTables};
use crate::request::{Completion, Looked, Request, Walked};
use crate::sides::EngineSide;
use crate::state::Walk;
use bd_base::{Cell, Found, PART_BLOCKS, Steps};
use std::sync::ledger::Ledger;

/// The request of an engine that is in its key, granted, and holds no translation.
fn request_entered(walk: &Walk) -> Request
    requires { IsEntered walk.now }
    ensures { walk.now ≡ Entered result }
{
    match *walk {
        Walk::Entered(request) => request,
        Walk::Idle | Walk::Refused(..) | Walk::Translated(..) => unreachable!(),
    }
}

/// What an engine holds that holds a translation.
fn held(walk: &Walk) -> (Request, Completion)
    requires { IsTranslated walk.now }
    ensures { walk.now ≡ Translated result.0 result.1 }
{
    match *walk {
        Walk::Translated(request, completion) => (request, completion),
        Walk::Idle | Walk::Entered(_) | Walk::Refused(..) => unreachable!(),
    }
}

/// Under which key a walk is that came to its end.
fn request_answered(walk: &Walk) -> Request
    requires { IsAnswered walk.now }
    ensures { request_of walk.now ≡ Some result }
{
    match *walk {
        Walk::Refused(request, _) | Walk::Translated(request, _) => request,
        Walk::Idle | Walk::Entered(_) => unreachable!(),
    }
}

/// The translation that a cell gives.
fn completion_of(request: &Request, cell: Cell) -> Completion
    ensures { result ≡ completion_of request.now cell }
{
    Completion {
        read: true,
        write: request.write,
        block: cell.block,
        limit: cell.limit,
    }
}

/// The walk and the answer after an enter that found this in place of what was asked for, or nothing amiss.
fn entered(request: &Request, found: Option<Found>) -> (Walk, Walked)
    ensures walk { result.0 ≡ entered_walk request.now found }
    ensures walked { result.1 ≡ walked_of found }
{
    match found {
        None => (Walk::Entered(*request), Walked::Granted),
        Some(found) => (Walk::Refused(*request, found), Walked::Missed(found)),
    }
}

/// The walk and the answer after a look that hit this cell, or missed.
fn looked(request: &Request, cell: Option<Cell>) -> (Walk, Looked)
    ensures walk { result.0 ≡ looked_walk request.now cell }
    ensures looked { result.1 ≡ looked_of cell }
{
    match cell {
        None => (Walk::Entered(*request), Looked::Miss),
        Some(cell) => {
            let completion = completion_of(request, cell);
            (Walk::Translated(*request, completion), Looked::Hit)
        }
    }
}

/// The walk and the answer after a read of this entry.
fn read(request: &Request, cell: Option<Cell>) -> (Walk, Walked)
    ensures walk { result.0 ≡ read_walk request.now cell }
    ensures walked { result.1 ≡ walked_of (found_reading request.now.hi cell) }
{
    match cell {
        None => (
            Walk::Refused(*request, Found::NoEntry),
            Walked::Missed(Found::NoEntry),
        ),
        Some(cell) if request.hi <= cell.limit => {
            let completion = completion_of(request, cell);
            (Walk::Translated(*request, completion), Walked::Granted)
        }
        Some(cell) => {
            let found = Found::Beyond(cell.limit);
            (Walk::Refused(*request, found), Walked::Missed(found))
        }
    }
}

impl EngineSide for PlainTables {
    fn enter<L: Ledger>(
        &mut self,
        pass: PlainPass,
        request: Request,
        steps: &mut Steps<L>,
    ) -> (PlainPass, Walked)
        requires is_of { IsLent self.old pass }
        requires idle { pass.walk ≡ Idle }
        requires own { pass.process ≡ request.key.process }
        requires part { request.key.part ≡ request.index / PART_BLOCKS }
        requires hi { IsLimit request.hi }
        ensures walked { AfterEnter request result.1 result.0.walk }
        ensures given_back { GivesBack IsLent process_of_pass self.old self.new pass result.0 }
        ensures counted { steps.new ≡ steps.old + 1 }
        ensures answer { result.1
            ≡ walked_of (found_entering (fin.get self.old.rights request.key) request.write) }
        ensures tables { tables_of self.new ≡ enter (tables_of self.old) request }
        ensures kernel { kernel_of self.new ≡ kernel_of self.old }
        ensures places { self.new.places
            ≡ set self.old.places pass.process (Some result.0.walk) }
    {
        steps.tick();
        let PlainPass { process, walk: _ } = pass;
        let asked = &request;
        let found = self.directory.enter(asked.key, asked.write).err();
        let (walk, walked) = entered(asked, found);
        let pass = PlainPass { process, walk };
        let lent = &pass;
        self.places[lent.process.get() as usize] = Some(lent.walk);
        (pass, walked)
    }

    fn look<L: Ledger>(&mut self, pass: PlainPass, steps: &mut Steps<L>) -> (PlainPass, Looked)
        requires is_of { IsLent self.old pass }
        requires entered { IsEntered pass.walk }
        ensures walked { (request : Request)
            → pass.walk ≡ Entered request → AfterLook request result.1 result.0.walk }
        ensures given_back { GivesBack IsLent process_of_pass self.old self.new pass result.0 }
        ensures counted { steps.new ≡ steps.old + 1 }
        ensures answer { (request : Request) → pass.walk ≡ Entered request → result.1
            ≡ looked_of (hit self.old.lines request.key request.index request.hi) }
        ensures tables { (request : Request)
            → pass.walk ≡ Entered request → tables_of self.new ≡ look (tables_of self.old) request }
        ensures kernel { kernel_of self.new ≡ kernel_of self.old }
        ensures places { self.new.places
            ≡ set self.old.places pass.process (Some result.0.walk) }
    {
        steps.tick();
        let PlainPass { process, walk } = pass;
        let request = request_entered(&walk);
        let asked = &request;
        let cell = self.lines.look(asked.key, asked.index, asked.hi);
        let (walk, looked) = looked(asked, cell);
        let pass = PlainPass { process, walk };
        let lent = &pass;
        self.places[lent.process.get() as usize] = Some(lent.walk);
        (pass, looked)
    }

    fn read_entry<L: Ledger>(
        &mut self,
        pass: PlainPass,
        steps: &mut Steps<L>,
    ) -> (PlainPass, Walked)
        requires is_of { IsLent self.old pass }
        requires entered { IsEntered pass.walk }
        ensures walked { (request : Request)
            → pass.walk ≡ Entered request → AfterRead request result.1 result.0.walk }
        ensures given_back { GivesBack IsLent process_of_pass self.old self.new pass result.0 }
        ensures counted { steps.new ≡ steps.old + 1 }
        ensures answer { (request : Request) → pass.walk ≡ Entered request → result.1
            ≡ walked_of (found_reading request.hi
            (lookup (tables_of self.old) request.key request.index)) }
        ensures tables { (request : Request) → pass.walk ≡ Entered request
            → tables_of self.new ≡ read_entry (tables_of self.old) request }
        ensures kernel { kernel_of self.new ≡ kernel_of self.old }
        ensures places { self.new.places
            ≡ set self.old.places pass.process (Some result.0.walk) }
    {
        steps.tick();
        let PlainPass { process, walk } = pass;
        let request = request_entered(&walk);
        let asked = &request;
        let right = self.rights.get(&asked.key).unwrap();
        let fragment = self.pool.of(right.file, asked.key.part).unwrap();
        let index = u64::from(asked.index) % PART_BLOCKS;
        let cell = self.pool.cell(fragment, index as u16);
        let (walk, walked) = read(asked, cell);
        let pass = PlainPass { process, walk };
        let lent = &pass;
        self.places[lent.process.get() as usize] = Some(lent.walk);
        (pass, walked)
    }

    fn fill<L: Ledger>(&mut self, pass: PlainPass, steps: &mut Steps<L>) -> PlainPass
        requires is_of { IsLent self.old pass }
        requires translated { IsTranslated pass.walk }
        ensures walked { result.walk ≡ pass.walk }
        ensures given_back { GivesBack IsLent process_of_pass self.old self.new pass result }
        ensures counted { steps.new ≡ steps.old + 1 }
        ensures tables { (request : Request) (completion : Completion)
            → pass.walk ≡ Translated request completion
            → tables_of self.new ≡ fill (tables_of self.old) request completion }
        ensures kernel { kernel_of self.new ≡ kernel_of self.old }
        ensures places { self.new.places ≡ self.old.places }
    {
        steps.tick();
        let (request, completion) = held(&pass.walk);
        let cell = Cell {
            block: completion.block,
            limit: completion.limit,
        };
        self.lines.fill(request.key, request.index, cell);
        pass
    }

    fn retire<L: Ledger>(&mut self, pass: PlainPass, steps: &mut Steps<L>) -> PlainPass
        requires is_of { IsLent self.old pass }
        requires answered { IsAnswered pass.walk }
        ensures walked { result.walk ≡ Idle }
        ensures given_back { GivesBack IsLent process_of_pass self.old self.new pass result }
        ensures counted { steps.new ≡ steps.old + 1 }
        ensures tables { tables_of self.new ≡ retire (tables_of self.old) pass.process }
        ensures kernel { kernel_of self.new ≡ kernel_of self.old }
        ensures places { self.new.places ≡ set self.old.places pass.process (Some Idle) }
    {
        steps.tick();
        let PlainPass { process, walk } = pass;
        let request = request_answered(&walk);
        self.directory.retire(request.key);
        self.places[process.get() as usize] = Some(Walk::Idle);
        PlainPass {
            process,
            walk: Walk::Idle,
        }
    }
}
