//! Why words are no request.

ghost use Rattle.std.specs.Prelude.{◌≡◌};
ghost use Rattle.leak_request.specs.declared.fault.UsageFault.TheVariants as usage;

use leak_index::ReadingError;
use std::alloc::{AllocError, AllocFailed};
use thiserror::Error;

/// Why the list of `--displace` is refused, in the order in which the reasons are tried.
#[derive(Clone, Copy, Debug, PartialEq, Eq, Error)]
pub enum DisplaceFault {
    /// The item with the number, from 0, is the first that is not 1 to 20 decimal digits with a value under 2^64.
    #[error("--displace: item {0} is not a number")]
    Number(usize),
    /// The numbers are no reading.
    #[error("--displace: {0}")]
    Reading(ReadingError),
}

/// Where the address of a block stands in a command line.
#[derive(Clone, Copy, Debug, PartialEq, Eq, Error)]
pub enum AddressArgument {
    /// After the core and the log.
    #[error("ADDRESS")]
    Operand,
    /// The value of `--in`.
    #[error("--in")]
    In,
    /// The value of `--of`.
    #[error("--of")]
    Of,
}

/// Why the words of a command line are no request, in the order in which the reasons are tried.
#[derive(Debug, Drop, Error)]
pub enum UsageFault {
    /// The words are refused. The text is to be printed alone.
    #[error("{0}")]
    Words(String),
    /// The list of displacements is refused, and nothing else is missing.
    #[error("{0}")]
    Displace(DisplaceFault),
    /// Blocks are to be compared with glibc's heap, and the allocator is said to be another.
    #[error("--check: not with --other-heap")]
    Check,
    /// It is asked both what some blocks hold and who holds them.
    #[error("--in: not with --of")]
    Sides,
    /// One block alone is meant, and nothing is asked about it.
    #[error("--block: only with --in or --of")]
    Block,
    /// The address of a block is not `0x` and 1 to 16 hexadecimal digits, and nothing else is missing.
    #[error("{0}: not 0x and 1 to 16 hexadecimal digits")]
    Address(AddressArgument),
    /// An allocation failed.
    #[error("out of memory")]
    NoMemory,
}

impl From<AllocError> for UsageFault {
    ghost from_gives = { λ _ e. e ≡ usage.NoMemory };

    fn from(_e: AllocError) -> UsageFault {
        UsageFault::NoMemory
    }
}

impl<T: Drop> From<AllocFailed<T>> for UsageFault {
    ghost from_gives = { λ _ e. e ≡ usage.NoMemory };

    fn from(_e: AllocFailed<T>) -> UsageFault {
        UsageFault::NoMemory
    }
}
