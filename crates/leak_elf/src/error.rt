//! Why a file is not read as a core.

ghost use Rattle.std.specs.Prelude.{◌≡◌};
ghost use Rattle.leak_elf.specs.declared.error.ElfError.TheVariants.{NoMemory};

use std::alloc::{AllocError, AllocFailed};
use thiserror::Error;

/// Why a file is not read as a core, in the order in which the reasons are tried.
///
/// The first ten are about the file header. Then the program headers are tried in the order of the
/// file, each for the next four. Program headers count from 0.
#[derive(Clone, Copy, Debug, PartialEq, Eq, Error)]
pub enum ElfError {
    /// The file has less than the 64 bytes of a file header.
    #[error("shorter than an ELF header")]
    Short,
    /// The first four bytes are not those of an ELF file.
    #[error("not an ELF file")]
    Magic,
    /// The class is not ELFCLASS64.
    #[error("not a 64-bit file")]
    Class,
    /// The data encoding is not ELFDATA2LSB.
    #[error("not little-endian")]
    Data,
    /// The version is not EV_CURRENT.
    #[error("unknown ELF version")]
    Version,
    /// The type is not ET_CORE.
    #[error("not a core file")]
    Kind,
    /// The machine is not EM_X86_64.
    #[error("not an x86-64 core")]
    Machine,
    /// A program header doesn't have 56 bytes.
    #[error("program header size is not 56")]
    EntrySize,
    /// The number of program headers is in section header 0 (PN_XNUM), which is not in the file.
    #[error("section header 0 is missing or cut off")]
    Extended,
    /// The program headers end past the end of the file.
    #[error("program headers are cut off")]
    TableCut,
    /// A segment or a part of notes has bytes in the file, and they end past the end of the file.
    #[error("header {0}: contents are cut off")]
    Truncated(usize),
    /// A segment has more bytes in the file than in memory.
    #[error("header {0}: file size is larger than memory size")]
    SizeOrder(usize),
    /// A segment ends past the last address, 2^64 - 1. An end of 2^64 is refused too.
    #[error("header {0}: addresses wrap")]
    Wrap(usize),
    /// A segment has an address in common with one of an earlier header.
    #[error("header {0}: overlaps an earlier segment")]
    Overlap(usize),
    /// There was no memory for the tables.
    #[error("out of memory")]
    NoMemory,
}

impl From<AllocError> for ElfError {
    ghost from_gives = { λ _ e. e ≡ NoMemory };

    fn from(_error: AllocError) -> ElfError {
        ElfError::NoMemory
    }
}

impl<T: Drop> From<AllocFailed<T>> for ElfError {
    ghost from_gives = { λ _ e. e ≡ NoMemory };

    fn from(_error: AllocFailed<T>) -> ElfError {
        ElfError::NoMemory
    }
}
