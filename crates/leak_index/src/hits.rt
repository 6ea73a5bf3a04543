//! Lookups of words among blocks.
ghost use Rattle.std.specs.Prelude.{◌≡◌, ◌≤◌, length, flat_map};
ghost use Rattle.leak_index.specs.Hits.{Index, hits_of, hits_in};

/// The numbers of the blocks that a word leads to, ascending.
#[derive(Clone, Copy, Debug, PartialEq, Eq)]
pub enum Hits {
    Zero,
    One(usize),
    Two(usize, usize),
}

/// A lookup of words among the live blocks of a log. Blocks count from 0 by ascending start.
pub trait Lookup {
    /// The blocks and the reading.
    ghost index: { Self → Index };

    /// The blocks that the word leads to.
    fn hits(&self, word: u64) -> Hits
        ensures { hits_in result ≡ hits_of (index self.now) word };

    /// How many blocks the words lead to at the least, for whoever makes room for them; 0 is right at any time. A lookup that
    /// has to read something for each word, wherever it lies, reads it here for all of them, so that a processor waits for it
    /// once. Then the hits of each word are near.
    fn count_leading(&self, words: &[u64]) -> usize
        ensures { result ≤ length (flat_map (hits_of (index self.now)) words.now) }
    {
        let _ = words;
        0
    }
}
