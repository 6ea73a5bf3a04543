//! Chains of words that hold a block.

/// Where a root word is.
#[derive(Clone, Copy, Debug, PartialEq, Eq)]
pub enum RootPlace {
    /// The register word with the number, counted from 0 over all threads.
    Register(usize),
    /// The address, of which the word has the 8 bytes.
    Address(u64),
}

/// A root word, and where it is.
#[derive(Clone, Copy, Debug, PartialEq, Eq)]
pub struct RootWord {
    pub place: RootPlace,
    pub word: u64,
}

/// A word of a block, which leads to another block.
#[derive(Clone, Copy, Debug, PartialEq, Eq)]
pub struct Link {
    /// The number of the block that has the word.
    pub holder: usize,
    /// The address of the word.
    pub address: u64,
    /// The word.
    pub word: u64,
}

/// A chain of words from a root to a block, told from the block back to the root.
#[derive(Debug, Drop)]
pub struct Chain {
    /// The first leads to the block itself, each next to the holder of the one before. None if the root word leads to
    /// the block.
    pub links: Vec<Link>,
    /// The root word, which leads to the holder of the last link.
    pub root: RootWord,
}
