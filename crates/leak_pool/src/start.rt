//! A state to mark from.

/// Which words of a block are scanned again.
#[derive(Clone, Copy, Debug, PartialEq, Eq)]
pub enum Part {
    /// All of them.
    Whole,
    /// Those on the pages that differ.
    Differing,
}

/// The blocks that are marked before marking begins, by ascending number, and what of them is scanned again.
#[derive(Drop)]
pub struct Start {
    pub marked: Vec<u32>,
    pub rescan: Vec<(u32, Part)>,
}
