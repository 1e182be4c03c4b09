//! Tables for one thread.
ghost use Rattle.std.specs.Prelude.{◌≡◌, ◌≤◌, None, Some, IfOk, IfSome};
ghost use Rattle.std.proofs.Common.{set};
ghost use Rattle.bd_base.specs.declared.limits.TheConstants.{PROCESSES};
ghost use Rattle.bd_tables.specs.declared.state.Walk.TheVariants.{Idle, Translated};
ghost use Rattle.bd_tables.specs.declared.request.Completion.{Completion};
ghost use Rattle.bd_tables.specs.declared.request.Request.{Request};
ghost use Rattle.bd_tables.specs.Answers.{Serves};
ghost use Rattle.bd_tables.specs.Passes.{IsLent, goes_apart, lies_in, process_of_pass, shows_whole, walk_of_pass};
ghost use Rattle.bd_tables.specs.Plain.{LiesHere, kernel_of, new_plain, tables_of};
ghost use Rattle.bd_tables.specs.State.{found_of, told_of};

mod engine;
mod fragments;
mod kernel;
mod rights;

use crate::request::Completion;
use crate::sides::Tables;
use crate::state::Walk;
use bd_base::{Found, OutOfMemory, Pid};
use bd_directory::Directory;
use bd_file_table::Pool;
use bd_lines::Lines;
use rights::RightMap;
use std::alloc::Global;
use std::marker::Model;

/// The pass of a process's engine. Where the engine is stands in it and in the tables that lent it.
#[derive(Debug, Drop)]
pub struct PlainPass {
    process: Pid,
    walk: Walk,
}

/// Translation tables for one thread, with an idle pass of each process. Contracts see the right of each attached
/// key, each pair in use with its fragment, the lines of the cache, and by process where the engine of a lent pass is.
///
/// Only [`PlainTables::new`] takes memory. What a call costs does not depend on how many keys are attached or how many
/// fragments are in use, but for the search of a fragment that is not.
#[derive(Drop)]
pub struct PlainTables {
    pool: Pool,
    directory: Directory,
    lines: Lines,
    rights: RightMap,
    // By process, None where its pass lies here.
    places: Vec<Option<Walk>>,
}

impl Model for PlainTables {
    ghost use Rattle.bd_tables.specs.Plain.{PlainState};

    ghost Value = { PlainState };

    ghost use Rattle.bd_tables.specs.Codes.{plain_code};

    ghost coded = { plain_code };

    ghost use Rattle.bd_tables.specs.Kept.{IsKept, state_inside};

    ghost view = { state_inside };

    ghost invariant = { λ a. IsKept (state_inside a) a.directory };
}

impl PlainTables {
    /// Tables for so many processes, at most 16, with nothing attached and the pass of each process in them.
    ///
    /// The only error is that no memory is found.
    pub fn new(alloc: Global, processes: u8) -> Result<PlainTables, OutOfMemory>
        requires { processes ≤ PROCESSES }
        ensures { IfOk result (λ tables. tables ≡ new_plain processes) }
    {
        let pool = Pool::new(alloc)?;
        let directory = Directory::new(alloc)?;
        let rights = RightMap::new(alloc)?;
        let places = vec![in alloc; None; usize::from(processes)]?;
        Ok(PlainTables {
            pool,
            directory,
            lines: Lines::new(),
            rights,
            places,
        })
    }

    /// Lends the pass of a process, which lies in the tables. It is idle.
    pub fn lend(&mut self, q: Pid) -> PlainPass
        requires { LiesHere self.old.places q }
        ensures process { result.process ≡ q }
        ensures idle { result.walk ≡ Idle }
        ensures lent { IsLent self.new result }
        ensures places { self.new.places ≡ set self.old.places q (Some Idle) }
        ensures tables { tables_of self.new ≡ tables_of self.old }
        ensures kernel { kernel_of self.new ≡ kernel_of self.old }
    {
        self.places[q.get() as usize] = Some(Walk::Idle);
        PlainPass {
            process: q,
            walk: Walk::Idle,
        }
    }

    /// Takes back a pass that these tables lent. It is idle.
    pub fn take_back(&mut self, pass: PlainPass)
        requires lent { IsLent self.old pass }
        requires idle { pass.walk ≡ Idle }
        ensures places { self.new.places ≡ set self.old.places pass.process None }
        ensures tables { tables_of self.new ≡ tables_of self.old }
        ensures kernel { kernel_of self.new ≡ kernel_of self.old }
    {
        self.places[pass.process.get() as usize] = None;
    }
}

impl Tables for PlainTables {
    type Pass = PlainPass;

    ghost walk = { walk_of_pass };

    ghost process = { process_of_pass };

    ghost is_of = { IsLent };

    ghost lies = { lies_in };

    ghost apart = { goes_apart };

    ghost shows = { shows_whole };

    fn told(&self, pass: &PlainPass) -> Option<Completion> {
        // What the translation promises is told by these tables.
        let _ = &self.places;
        match pass.walk {
            Walk::Translated(_, completion) => Some(completion),
            Walk::Idle | Walk::Entered(_) | Walk::Refused(..) => None,
        }
    }

    fn found(&self, pass: &PlainPass) -> Option<Found> {
        match pass.walk {
            Walk::Refused(_, found) => Some(found),
            Walk::Idle | Walk::Entered(_) | Walk::Translated(..) => None,
        }
    }
}
