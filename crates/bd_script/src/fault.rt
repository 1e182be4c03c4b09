//! What is wrong with a line.
ghost use Rattle.std.specs.Prelude.{◌≡◌};
ghost use Rattle.bd_script.specs.declared.fault.Fault.TheVariants.{OutOfMemory};
ghost use Rattle.bd_script.specs.Reading.{fault_rule};

use std::alloc::{AllocError, AllocFailed};

/// The rule that a line breaks, or that no memory was found.
#[derive(Clone, Copy, Debug, PartialEq, Eq)]
pub enum Fault {
    /// The line has no form of the table.
    Form,
    /// A number, or the number of bytes, is outside its range.
    Range,
    /// A call without a process, or a process or a call after a schedule line.
    Order,
    /// Too many processes, calls, schedule lines, items or turns.
    Place,
    /// An actor that is not there.
    Actor,
    /// No memory was found.
    OutOfMemory,
}

impl From<AllocError> for Fault {
    ghost from_gives = { λ _ e. e ≡ OutOfMemory };

    fn from(_error: AllocError) -> Fault {
        Fault::OutOfMemory
    }
}

impl<T: Drop> From<AllocFailed<T>> for Fault {
    ghost from_gives = { λ _ e. e ≡ OutOfMemory };

    fn from(_error: AllocFailed<T>) -> Fault {
        Fault::OutOfMemory
    }
}

impl From<bd_base::OutOfMemory> for Fault {
    ghost from_gives = { λ _ e. e ≡ OutOfMemory };

    fn from(_error: bd_base::OutOfMemory) -> Fault {
        Fault::OutOfMemory
    }
}

impl Fault {
    /// The number of the rule: None where no memory was found.
    pub fn rule(self) -> Option<u8>
        ensures { result ≡ fault_rule self }
    {
        match self {
            Fault::Form => Some(4),
            Fault::Range => Some(5),
            Fault::Order => Some(6),
            Fault::Place => Some(7),
            Fault::Actor => Some(8),
            Fault::OutOfMemory => None,
        }
    }
}
