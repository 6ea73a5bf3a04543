//! Why root words are not cut.

ghost use Rattle.std.specs.Prelude.{◌≡◌};
ghost use Rattle.leak_roots.specs.declared.error.CutError.TheVariants.{NoMemory};

use std::alloc::{AllocError, AllocFailed};
use thiserror::Error;

/// Why root words are not cut into pieces.
#[derive(Clone, Copy, Debug, PartialEq, Eq, Error)]
pub enum CutError {
    /// Pieces of 0 words were asked for.
    #[error("a piece needs a word")]
    Zero,
    /// There was no memory for the pieces.
    #[error("out of memory")]
    NoMemory,
}

impl From<AllocError> for CutError {
    ghost from_gives = { λ _ e. e ≡ NoMemory };

    fn from(_error: AllocError) -> CutError {
        CutError::NoMemory
    }
}

impl<T: Drop> From<AllocFailed<T>> for CutError {
    ghost from_gives = { λ _ e. e ≡ NoMemory };

    fn from(_error: AllocFailed<T>) -> CutError {
        CutError::NoMemory
    }
}
