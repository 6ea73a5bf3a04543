//! Why an input is not read to its end, and why a text is not written completely.

ghost use Rattle.std.specs.Prelude.{◌≡◌};
ghost use Rattle.leak_streams.specs.declared.fault.ReadFault.TheVariants.{NoMemory};

use std::alloc::AllocError;
use thiserror::Error;

/// Why an input was not read to its end.
#[derive(Clone, Copy, Debug, PartialEq, Eq, Error)]
pub enum ReadFault {
    /// The input has more bytes than its limit. One byte more than the limit was taken.
    #[error("too long")]
    TooLong,
    /// A read failed, other than by an interruption.
    #[error("read failed")]
    Device,
    /// Reads were interrupted 1,000,000 times.
    #[error("too many interrupted reads")]
    TooManyTurns,
    /// An allocation failed.
    #[error("out of memory")]
    NoMemory,
}

impl From<AllocError> for ReadFault {
    ghost from_gives = { λ _ e. e ≡ NoMemory };

    fn from(_e: AllocError) -> ReadFault {
        ReadFault::NoMemory
    }
}

/// A writer didn't take the whole text: a write failed, took no byte, or was interrupted too often.
#[derive(Clone, Copy, Debug, PartialEq, Eq, Error)]
#[error("write failed after {written} bytes")]
pub struct WriteFault {
    /// How many bytes the writer took. They are the first of the text.
    pub written: u64,
}
