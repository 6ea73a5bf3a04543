//! Why a log is refused.
ghost use Rattle.std.specs.Prelude.{◌≡◌};
ghost use Rattle.leak_mtrace.specs.declared.error.LogError.TheVariants.{NoMemory};

use std::alloc::{AllocError, AllocFailed};
use thiserror::Error;

/// The first reason to refuse a log. The number is that of the first faulty line, counted from 1.
#[derive(Clone, Copy, Debug, PartialEq, Eq, Error)]
pub enum LogError {
    /// mtrace writes no such line. Skipping it could invent leaks, so the log is refused.
    #[error("line {0} is not an mtrace line")]
    BadLine(usize),
    /// The block of an allocation has no last address: its size takes it past 2^64 - 1.
    #[error("line {0}: block ends past the address space")]
    Extent(usize),
    #[error("out of memory")]
    NoMemory,
}

impl<T: Drop> From<AllocFailed<T>> for LogError {
    ghost from_gives = { λ _ e. e ≡ NoMemory };

    fn from(_e: AllocFailed<T>) -> LogError {
        LogError::NoMemory
    }
}

impl From<AllocError> for LogError {
    ghost from_gives = { λ _ e. e ≡ NoMemory };

    fn from(_e: AllocError) -> LogError {
        LogError::NoMemory
    }
}
