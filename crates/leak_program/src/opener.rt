//! What opens files.

ghost use Rattle.std.specs.Prelude.{ℕ, List, Result, ⊤};
ghost use Rattle.std.specs.declared.io.Error.{Error};

use leak_streams::ReadCalls;
use std::fs::{self, OpenFile};
use std::io::{self, ErrorKind};
use std::rt::Files;

/// Opens files by their paths. Each opening has a name in contracts.
///
/// A function that knows nothing else of its opener has to tell each opening that it makes.
pub trait Opener {
    /// An opened file, which can be read.
    type File: ReadCalls + Drop;

    /// What an opening does: the opener before it, the path, the answer, and the opener after it.
    ghost opens: { Self → List ℕ → Result Self.File Error → Self → Type 0 };

    /// What size a file is said to have.
    ghost tells_size: { Self.File → ℕ → Type 0 };

    /// Opens the file with the path, to read it. A folder is refused.
    fn open_file(&mut self, path: &str) -> io::Result<Self::File>
        ensures opening { opens self.old path.now result self.new };

    /// The size that the file is said to have, in bytes: 0 if that can't be told, as of a pipe.
    fn size_of(file: &Self::File) -> u64
        ensures size { tells_size file.now result };
}

impl<R: Files> Opener for R {
    type File = R::File;

    ghost opens = { λ _ _ _ _. ⊤ };

    ghost tells_size = { λ _ _. ⊤ };

    fn open_file(&mut self, path: &str) -> io::Result<R::File> {
        let file = fs::open(self, path)?;
        match file.metadata() {
            Ok(metadata) if metadata.is_dir() => Err(io::Error::from(ErrorKind::IsADirectory)),
            _ => Ok(file),
        }
    }

    fn size_of(file: &R::File) -> u64 {
        match file.metadata() {
            Ok(metadata) => metadata.len(),
            Err(_) => 0,
        }
    }
}
