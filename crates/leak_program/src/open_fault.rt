//! Why a file is not opened.

ghost use Rattle.std.specs.Prelude.{◌≡◌};
ghost use Rattle.leak_program.specs.Reasons.{reason_of};
ghost use Rattle.leak_program.specs.declared.open_fault.OpenFault.TheVariants.{NoMemory};

use std::alloc::{AllocError, AllocFailed};
use std::io::ErrorKind;

/// Why a path can't be opened.
#[derive(Clone, Copy, Debug, PartialEq, Eq)]
pub enum Reason {
    /// Nothing has the path.
    Missing,
    /// The file may not be read.
    Denied,
    /// It is a folder.
    Folder,
    /// Something on the way should be a folder and is not.
    NotFolder,
    /// The name is too long, or not allowed.
    Name,
    /// Too many symbolic links are on the way.
    Links,
    /// Any other reason.
    Other,
}

/// Why some paths were not opened.
#[derive(Debug, Drop)]
pub enum OpenFault {
    /// The path can't be opened, for the reason. Those before it were.
    Refused(String, Reason),
    /// An allocation failed.
    NoMemory,
}

/// The reason that the kind of an error tells.
pub fn reason_of(kind: ErrorKind) -> Reason
    ensures { result ≡ reason_of kind }
{
    match kind {
        ErrorKind::NotFound => Reason::Missing,
        ErrorKind::PermissionDenied => Reason::Denied,
        ErrorKind::IsADirectory => Reason::Folder,
        ErrorKind::NotADirectory => Reason::NotFolder,
        ErrorKind::InvalidFilename => Reason::Name,
        ErrorKind::FilesystemLoop => Reason::Links,
        _ => Reason::Other,
    }
}

impl From<AllocError> for OpenFault {
    ghost from_gives = { λ _ fault. fault ≡ NoMemory };

    fn from(_e: AllocError) -> OpenFault {
        OpenFault::NoMemory
    }
}

impl<T: Drop> From<AllocFailed<T>> for OpenFault {
    ghost from_gives = { λ _ fault. fault ≡ NoMemory };

    fn from(_e: AllocFailed<T>) -> OpenFault {
        OpenFault::NoMemory
    }
}
