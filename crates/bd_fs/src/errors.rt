//! Why files are not made and do not grow.

use bd_base::{OutOfMemory, Reason};
use std::alloc::{AllocError, AllocFailed};

/// Why a file is not made.
#[derive(Clone, Copy, Debug, PartialEq, Eq)]
pub enum CreateError {
    /// A file of that name is there.
    Exists,
    /// All ids are used.
    Inodes,
    /// No memory was found.
    OutOfMemory,
}

impl From<AllocError> for CreateError {
    ghost use Rattle.std.specs.Prelude.{◌≡◌};
    ghost use Rattle.bd_fs.specs.declared.errors.CreateError.TheVariants.{OutOfMemory};

    ghost from_gives = { λ _ e. e ≡ OutOfMemory };

    fn from(_error: AllocError) -> CreateError {
        CreateError::OutOfMemory
    }
}

impl<T: Drop> From<AllocFailed<T>> for CreateError {
    ghost use Rattle.std.specs.Prelude.{◌≡◌};
    ghost use Rattle.bd_fs.specs.declared.errors.CreateError.TheVariants.{OutOfMemory};

    ghost from_gives = { λ _ e. e ≡ OutOfMemory };

    fn from(_error: AllocFailed<T>) -> CreateError {
        CreateError::OutOfMemory
    }
}

/// Why a file does not grow.
#[derive(Clone, Copy, Debug, PartialEq, Eq)]
pub enum GrowError {
    /// It would be larger than [`bd_base::FILE_SIZE`].
    TooBig,
    /// A block is needed, and none is free.
    NoSpace,
    /// The block that would be taken needs a 25th extent.
    Extents,
    /// No memory was found.
    OutOfMemory,
}

impl From<OutOfMemory> for GrowError {
    ghost use Rattle.std.specs.Prelude.{◌≡◌};
    ghost use Rattle.bd_fs.specs.declared.errors.GrowError.TheVariants.{OutOfMemory};

    ghost from_gives = { λ _ e. e ≡ OutOfMemory };

    fn from(_error: OutOfMemory) -> GrowError {
        GrowError::OutOfMemory
    }
}

/// Why a file would not grow, were there memory.
#[derive(Clone, Copy)]
pub enum Refusal {
    /// It would be larger than a file may be.
    TooBig,
    /// A block is needed, and none is free.
    NoSpace,
    /// The block that would be taken needs an extent too many.
    Extents,
}

impl From<Refusal> for GrowError {
    ghost use Rattle.std.specs.Prelude.{◌≡◌};
    ghost use Rattle.bd_fs.specs.Errors.{error_of};

    ghost from_gives = { λ r e. e ≡ error_of r };

    fn from(refusal: Refusal) -> GrowError {
        match refusal {
            Refusal::TooBig => GrowError::TooBig,
            Refusal::NoSpace => GrowError::NoSpace,
            Refusal::Extents => GrowError::Extents,
        }
    }
}

impl From<Refusal> for Reason {
    ghost use Rattle.std.specs.Prelude.{◌≡◌};
    ghost use Rattle.bd_fs.specs.Errors.{reason_of};

    ghost from_gives = { λ r e. e ≡ reason_of r };

    fn from(refusal: Refusal) -> Reason {
        match refusal {
            Refusal::TooBig => Reason::TooBig,
            Refusal::NoSpace => Reason::NoSpace,
            Refusal::Extents => Reason::Extents,
        }
    }
}
