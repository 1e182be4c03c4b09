//! Why a script is refused.
ghost use Rattle.std.specs.Prelude.{◌≡◌};
ghost use Rattle.bd_script.specs.declared.error.ScriptError.TheVariants.{OutOfMemory};

use std::alloc::{AllocError, AllocFailed};
use thiserror::Error;

/// Why a script was not read.
#[derive(Debug, Drop, Error)]
pub enum ScriptError {
    /// The text is that of no script. `line` is the first bad line, and `rule` the least number of
    /// a rule that it breaks, from 1 to 8; docs/FORMATS.md has the rules.
    #[error("bad script: rule {rule} at line {line}")]
    BadScript { line: u64, rule: u8 },
    /// No memory was found.
    #[error("out of memory")]
    OutOfMemory,
}

impl From<AllocError> for ScriptError {
    ghost from_gives = { λ _ e. e ≡ OutOfMemory };

    fn from(_error: AllocError) -> ScriptError {
        ScriptError::OutOfMemory
    }
}

impl<T: Drop> From<AllocFailed<T>> for ScriptError {
    ghost from_gives = { λ _ e. e ≡ OutOfMemory };

    fn from(_error: AllocFailed<T>) -> ScriptError {
        ScriptError::OutOfMemory
    }
}

impl From<bd_base::OutOfMemory> for ScriptError {
    ghost from_gives = { λ _ e. e ≡ OutOfMemory };

    fn from(_error: bd_base::OutOfMemory) -> ScriptError {
        ScriptError::OutOfMemory
    }
}
