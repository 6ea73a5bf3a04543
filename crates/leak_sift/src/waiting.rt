//! Bytes that wait for the rest of their word.
ghost use Rattle.std.specs.Prelude.{◌≡◌, [], ◌++◌, ◌+◌, ◌<◌, length};

use std::marker::Model;

/// The bytes of a word of which not all are there: fewer than 8.
#[derive(Drop)]
pub(crate) struct Waiting {
    bytes: [u8; 8],
    len: usize,
}

impl Model for Waiting {
    ghost use Rattle.std.specs.Prelude.{List, ℕ, take, ◌<◌};

    ghost Value = { List ℕ };

    ghost view = { λ waiting. take waiting.len waiting.bytes };

    ghost invariant = { λ waiting. waiting.len < 8 };
}

impl Waiting {
    /// No bytes.
    pub(crate) fn new() -> Waiting
        ensures { result ≡ [] }
    {
        Waiting {
            bytes: [0; 8],
            len: 0,
        }
    }

    /// How many bytes wait.
    pub(crate) fn len(&self) -> usize
        ensures value { result ≡ length self.now }
        ensures few { result < 8 }
    {
        self.len
    }

    /// Adds bytes that don't complete the word.
    pub(crate) fn add(&mut self, bytes: &[u8])
        requires { length self.old + length bytes.now < 8 }
        ensures { self.new ≡ self.old ++ bytes.now }
    {
        let end = self.len + bytes.len();
        self.bytes[self.len..end].copy_from_slice(bytes);
        self.len = end;
    }

    /// The bytes of the word that these bytes complete.
    pub(crate) fn completed(&self, bytes: &[u8]) -> [u8; 8]
        requires { length self.now + length bytes.now ≡ 8 }
        ensures { result ≡ self.now ++ bytes.now }
    {
        let mut word = self.bytes;
        word[self.len..8].copy_from_slice(bytes);
        word
    }
}
