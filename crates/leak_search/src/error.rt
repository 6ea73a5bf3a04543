//! Why a search gives no report.

ghost use Rattle.std.specs.Prelude.{◌≡◌};
ghost use Rattle.leak_search.specs.declared.error.FindError.TheVariants.{NoMemory};
ghost use Rattle.leak_search.specs.Inputs.{at_core, at_notes, at_log, at_marking};

use leak_elf::ElfError;
use leak_mtrace::LogError;
use leak_notes::NoteError;
use leak_pool::PoolError;
use std::alloc::AllocError;
use thiserror::Error;

/// The first reason why a search gives no report. An input is a core and its log, and inputs count from 1.
#[derive(Clone, Copy, Debug, PartialEq, Eq, Error)]
pub enum FindError {
    /// The core is refused.
    #[error("input {0}: core: {1}")]
    Core(u8, ElfError),
    /// The notes of the core are refused.
    #[error("input {0}: notes: {1}")]
    Notes(u8, NoteError),
    /// The log is refused.
    #[error("input {0}: log: {1}")]
    Log(u8, LogError),
    /// The complete lines of log 1 do not begin log 2.
    #[error("log 1 is not a prefix of log 2")]
    NotPrefix,
    /// There are over 2^32 - 1 live blocks.
    #[error("too many blocks")]
    TooMany,
    /// An allocation failed.
    #[error("out of memory")]
    NoMemory,
}

impl From<AllocError> for FindError {
    ghost from_gives = { λ _ e. e ≡ NoMemory };

    fn from(_e: AllocError) -> FindError {
        FindError::NoMemory
    }
}

impl From<PoolError> for FindError {
    ghost from_gives = { λ e f. f ≡ at_marking e };

    fn from(error: PoolError) -> FindError {
        match error {
            PoolError::TooMany => FindError::TooMany,
            PoolError::NoMemory => FindError::NoMemory,
        }
    }
}

/// The refusal of the core of the input with the number.
pub fn at_core(input: u8, error: ElfError) -> FindError
    ensures { result ≡ at_core input error }
{
    match error {
        ElfError::NoMemory => FindError::NoMemory,
        _ => FindError::Core(input, error),
    }
}

/// The refusal of the notes of the input with the number.
pub(crate) fn at_notes(input: u8, error: NoteError) -> FindError
    ensures { result ≡ at_notes input error }
{
    match error {
        NoteError::NoMemory => FindError::NoMemory,
        _ => FindError::Notes(input, error),
    }
}

/// The refusal of the log of the input with the number.
pub(crate) fn at_log(input: u8, error: LogError) -> FindError
    ensures { result ≡ at_log input error }
{
    match error {
        LogError::NoMemory => FindError::NoMemory,
        _ => FindError::Log(input, error),
    }
}
