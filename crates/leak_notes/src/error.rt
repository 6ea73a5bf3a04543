//! Why the notes of a core are refused.

ghost use Rattle.std.specs.Prelude.{◌≡◌};
ghost use Rattle.leak_notes.specs.declared.error.NoteError.TheVariants.{NoMemory};

use std::alloc::{AllocError, AllocFailed};
use thiserror::Error;

/// Why the notes of a core are refused, in the order in which the reasons are tried.
///
/// The first three are tried for each entry, in the order of the parts and of the entries in them. The number is
/// the offset in the file of the entry's first byte.
#[derive(Clone, Copy, Debug, PartialEq, Eq, Error)]
pub enum NoteError {
    /// The fields, the padded name or the descriptor of an entry pass the end of its part.
    #[error("note at {0} is cut off")]
    Cut(u64),
    /// The descriptor of a thread status does not have the 336 bytes of Linux's `struct elf_prstatus`.
    #[error("thread status at {0} has a wrong size")]
    StatusSize(u64),
    /// The descriptor of a vector entry does not have the 512 bytes of the FXSAVE area.
    #[error("vector registers at {0} have a wrong size")]
    VectorSize(u64),
    /// No entry is a thread status.
    #[error("no thread status")]
    NoThread,
    /// There was no memory for the registers.
    #[error("out of memory")]
    NoMemory,
}

impl From<AllocError> for NoteError {
    ghost from_gives = { λ _ e. e ≡ NoMemory };

    fn from(_error: AllocError) -> NoteError {
        NoteError::NoMemory
    }
}

impl<T: Drop> From<AllocFailed<T>> for NoteError {
    ghost from_gives = { λ _ e. e ≡ NoMemory };

    fn from(_error: AllocFailed<T>) -> NoteError {
        NoteError::NoMemory
    }
}
