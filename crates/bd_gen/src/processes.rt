//! The processes of a made script.
ghost use Rattle.std.specs.Prelude.{◌≡◌, ◌<◌, cond, unwrap_or, IfOk, OnOk};
ghost use Rattle.bd_base.specs.declared.limits.TheConstants.{PROCESSES};
ghost use Rattle.bd_gen.specs.Calls.{drawn_call, fixed_call};
ghost use Rattle.bd_gen.specs.Draws.{next_number, number_after};
ghost use Rattle.bd_gen.specs.Script.{drawn_before, is_drawn, made_process, made_script};

use crate::calls::{drawn_call, fixed_call};
use crate::draws::Draws;
use bd_base::{CALLS, Call, List, OutOfMemory, PROCESSES, Process, Script};
use std::alloc::Global;

/// The user of process 0; each later process has the next one.
const FIRST_USER: u32 = 1000;

/// The call of this number of a process. A number is drawn where the call is not fixed.
fn next_call(alloc: Global, process: u64, call: u64, draws: &mut Draws) -> Result<Call, OutOfMemory>
    ensures call { IfOk result (λ made. made
        ≡ unwrap_or (fixed_call process call) (drawn_call (next_number draws.old.last))) }
    ensures draws { OnOk result (draws.new.last
        ≡ cond (is_drawn process call) (next_number draws.old.last) draws.old.last) }
{
    match fixed_call(alloc, process, call)? {
        Some(fixed) => Ok(fixed),
        None => drawn_call(alloc, draws.draw()),
    }
}

/// The process of this number, with its calls.
fn next_process(alloc: Global, process: u32, draws: &mut Draws) -> Result<Process, OutOfMemory>
    requires { process < PROCESSES }
    ensures process { IfOk result (λ made. made ≡ made_process draws.old.last process) }
    ensures draws { OnOk result
        (draws.new.last ≡ number_after draws.old.last (drawn_before process 256)) }
{
    let mut calls = List::with_capacity(alloc, CALLS as usize)?;
    for call in 0..CALLS {
        calls.push(next_call(alloc, u64::from(process), call, draws)?)?;
    }
    Ok(Process {
        uid: FIRST_USER + process,
        calls,
    })
}

/// The script that is made from `n`.
pub(crate) fn made_script(alloc: Global, n: u64) -> Result<Script, OutOfMemory>
    ensures { IfOk result (λ script. script ≡ made_script n) }
{
    let mut draws = Draws { last: n };
    let mut processes = List::with_capacity(alloc, PROCESSES as usize)?;
    for process in 0..PROCESSES as u32 {
        processes.push(next_process(alloc, process, &mut draws)?)?;
    }
    Ok(Script {
        processes,
        schedule: List::new(alloc),
    })
}
