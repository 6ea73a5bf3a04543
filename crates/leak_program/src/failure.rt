//! Why the program gives no report.

ghost use Rattle.std.specs.Prelude.{◌≡◌};
ghost use Rattle.leak_program.specs.Failures.{at_opening};
ghost use Rattle.leak_program.specs.declared.failure.Failure.TheVariants.{NoMemory, Usage};

use crate::open_fault::{OpenFault, Reason};
use leak_find::{ReadFault, RunFault, UsageFault};
use std::alloc::{AllocError, AllocFailed};

/// Why the program gives no report, in the order in which the reasons are tried.
#[derive(Debug, Drop)]
pub enum Failure {
    /// A word of the command line is not UTF-8.
    BadArgument,
    /// The words are no request.
    Usage(UsageFault),
    /// The file with the path can't be opened, for the reason. No file was read.
    Open(String, Reason),
    /// The reader with the number, from 1, whose file has the path, was not read to its end. Nothing was written.
    Read(u8, String, ReadFault),
    /// The run has no status, for another reason.
    Run(RunFault),
    /// An allocation failed.
    NoMemory,
}

impl From<UsageFault> for Failure {
    ghost from_gives = { λ fault failure. failure ≡ Usage fault };

    fn from(fault: UsageFault) -> Failure {
        Failure::Usage(fault)
    }
}

impl From<OpenFault> for Failure {
    ghost from_gives = { λ fault failure. failure ≡ at_opening fault };

    fn from(fault: OpenFault) -> Failure {
        match fault {
            OpenFault::Refused(path, reason) => Failure::Open(path, reason),
            OpenFault::NoMemory => Failure::NoMemory,
        }
    }
}

impl From<AllocError> for Failure {
    ghost from_gives = { λ _ failure. failure ≡ NoMemory };

    fn from(_e: AllocError) -> Failure {
        Failure::NoMemory
    }
}

impl<T: Drop> From<AllocFailed<T>> for Failure {
    ghost from_gives = { λ _ failure. failure ≡ NoMemory };

    fn from(_e: AllocFailed<T>) -> Failure {
        Failure::NoMemory
    }
}
