//! A row of the report on what some blocks hold, or on who holds them.

/// How many blocks of a text are held, or how many blocks a text holds.
#[derive(Clone, Copy, Debug, PartialEq, Eq)]
pub struct CallerShare {
    /// The number of the text, by its place among the texts in ascending order of their bytes.
    pub text: u32,
    /// The number of blocks.
    pub blocks: u64,
    /// The sum of their sizes, in bytes.
    pub bytes: u64,
}
