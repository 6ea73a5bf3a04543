//! A live block.

/// A live block: an allocation that no later line of the log ends.
#[derive(Clone, Copy, Debug, PartialEq, Eq)]
pub struct Block {
    /// The address of its first byte.
    pub start: u64,
    /// Its size in bytes, as the log states it. It may be 0.
    pub size: u64,
    /// The number of its allocation's line, counted from 1.
    pub line: usize,
    /// The place of the call that allocated it, as a range of the log's bytes with its end excluded. `(0, 0)` for none.
    pub caller: (usize, usize),
}
