//! Why an image is refused.
ghost use Rattle.std.specs.Prelude.{◌≡◌};
ghost use Rattle.bd_image.specs.declared.error.ImageError.TheVariants.{OutOfMemory};

use std::alloc::{AllocError, AllocFailed};
use thiserror::Error;

/// Why an image was not read.
#[derive(Debug, Drop, Error)]
pub enum ImageError {
    /// The image breaks a rule. `rule` is the least number of a broken rule, from 1 to 19, and
    /// `place` the least byte where it is broken; docs/FORMATS.md has the rules and their places.
    #[error("bad image: rule {rule} at {place}")]
    BadImage { rule: u8, place: u64 },
    /// No memory was found.
    #[error("out of memory")]
    OutOfMemory,
}

impl From<AllocError> for ImageError {
    ghost from_gives = { λ _ e. e ≡ OutOfMemory };

    fn from(_error: AllocError) -> ImageError {
        ImageError::OutOfMemory
    }
}

impl<T: Drop> From<AllocFailed<T>> for ImageError {
    ghost from_gives = { λ _ e. e ≡ OutOfMemory };

    fn from(_error: AllocFailed<T>) -> ImageError {
        ImageError::OutOfMemory
    }
}

impl From<bd_base::OutOfMemory> for ImageError {
    ghost from_gives = { λ _ e. e ≡ OutOfMemory };

    fn from(_error: bd_base::OutOfMemory) -> ImageError {
        ImageError::OutOfMemory
    }
}
