//! Questions about one block, or about all blocks of its text.

/// A question about all blocks of one text of a caller, or about one block.
#[derive(Clone, Copy, Debug, PartialEq, Eq)]
pub struct Question {
    /// The address of a byte of the live block that is asked for, or of its start.
    pub address: u64,
    /// What is asked.
    pub side: Side,
    /// Whether that block alone is meant, and not all blocks of its text.
    pub alone: bool,
}

/// What is asked about the chosen blocks.
#[derive(Clone, Copy, Debug, PartialEq, Eq)]
pub enum Side {
    /// What these blocks hold.
    In,
    /// Which other texts hold them.
    Of,
}
