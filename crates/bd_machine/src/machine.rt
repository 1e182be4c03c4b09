//! The machine: it takes turns, and keeps the journal and the trace of them.
mod calls;
mod engines;

use crate::parts::Parts;
use bd_base::Script;
use bd_medium::Medium;
use bd_tables::Tables;
use std::marker::Model;

/// A machine that runs a script over a volume whose bytes lie on a device, by translation tables of either kind.
/// Contracts see the script and the parts that its turns change; they always show a state to which the abstract machine
/// can come.
#[derive(Drop)]
pub struct Machine<T: Tables, M: Medium> {
    script: Script,
    parts: Parts<T, M>,
}

impl<T: Tables, M: Medium> Model for Machine<T, M> {
    ghost use Rattle.bd_machine.specs.Whole.{Whole};

    ghost Value = { Whole T M T.Pass };

    ghost use Rattle.bd_machine.specs.Kept.{IsKept};

    ghost view = { λ a. record { script = a.script; parts = a.parts } };

    ghost invariant = { λ a. IsKept T.Tables a.script a.parts };
}
