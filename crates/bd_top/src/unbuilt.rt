//! Calls that have a reading and that the machine does not run yet.
ghost use Rattle.std.specs.Prelude.{◌≡◌, position};
ghost use Rattle.bd_base.specs.Scripts.{IsWithinLimits};
ghost use Rattle.bd_top.specs.Inputs.{first_unbuilt, is_unbuilt};

use bd_base::{Call, Script};
use bd_machine::is_built;

/// The place of the first of these calls that is not built, if there is one.
fn unbuilt_call(calls: &[Call]) -> Option<usize>
    ensures { result ≡ position is_unbuilt calls.now }
{
    calls.iter().position(|call| !is_built(call))
}

/// The number of the first line of a call that is not built, if there is one.
pub(crate) fn first_unbuilt(script: &Script) -> Option<u64>
    requires { IsWithinLimits script.now }
    ensures { result ≡ first_unbuilt script.now }
{
    let mut line = 2;
    for process in script.processes.as_slice() {
        if let Some(call) = unbuilt_call(process.calls.as_slice()) {
            return Some(line + 1 + call as u64);
        }
        line += 1 + process.calls.len() as u64;
    }
    None
}
