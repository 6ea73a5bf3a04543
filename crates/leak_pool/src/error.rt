//! Why marking gives nothing.
ghost use Rattle.std.specs.Prelude.{◌≡◌};
ghost use Rattle.leak_pool.specs.declared.error.PoolError.TheVariants.{NoMemory};

use std::alloc::{AllocError, AllocFailed};
use thiserror::Error;

/// The first reason why marking gives nothing.
#[derive(Clone, Copy, Debug, PartialEq, Eq, Error)]
pub enum PoolError {
    /// There are over 2^32 - 1 live blocks, more than a claim can name.
    #[error("too many blocks")]
    TooMany,
    #[error("out of memory")]
    NoMemory,
}

impl<T: Drop> From<AllocFailed<T>> for PoolError {
    ghost from_gives = { λ _ e. e ≡ NoMemory };

    fn from(_e: AllocFailed<T>) -> PoolError {
        PoolError::NoMemory
    }
}

impl From<AllocError> for PoolError {
    ghost from_gives = { λ _ e. e ≡ NoMemory };

    fn from(_e: AllocError) -> PoolError {
        PoolError::NoMemory
    }
}
