//! Why a journal is not read.
ghost use Rattle.std.specs.Prelude.{◌≡◌};
ghost use Rattle.bd_entry.specs.declared.error.JournalError.TheVariants.{OutOfMemory};

use std::alloc::{AllocError, AllocFailed};
use thiserror::Error;

/// Why a journal was not read.
#[derive(Debug, Drop, Error)]
pub enum JournalError {
    /// The text is that of no journal. `line` is the number, from 1, of the first line that has no reading.
    #[error("bad journal: line {line}")]
    BadJournal { line: u64 },
    /// No memory was found.
    #[error("out of memory")]
    OutOfMemory,
}

impl From<AllocError> for JournalError {
    ghost from_gives = { λ _ e. e ≡ OutOfMemory };

    fn from(_error: AllocError) -> JournalError {
        JournalError::OutOfMemory
    }
}

impl<T: Drop> From<AllocFailed<T>> for JournalError {
    ghost from_gives = { λ _ e. e ≡ OutOfMemory };

    fn from(_error: AllocFailed<T>) -> JournalError {
        JournalError::OutOfMemory
    }
}

impl From<bd_base::OutOfMemory> for JournalError {
    ghost from_gives = { λ _ e. e ≡ OutOfMemory };

    fn from(_error: bd_base::OutOfMemory) -> JournalError {
        JournalError::OutOfMemory
    }
}
