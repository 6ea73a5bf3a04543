//! The numbers of a report that are not of its blocks.

/// The numbers in the first lines of a report.
#[derive(Clone, Copy, Debug, PartialEq, Eq)]
pub struct Head {
    /// Bytes of writable segments that the core leaves out.
    pub undumped: u64,
    /// Give-backs of the log whose address was that of no live block.
    pub unknown: u64,
    /// Allocations of the log that were ended by an allocation.
    pub displaced: u64,
    /// 1 if something follows the log's last line feed, else 0.
    pub torn: u64,
    /// How many words of freed memory are left out of the root words, if such words are left out.
    pub freed: Option<u64>,
    /// How many words of dead stack are left out of the root words, if such words are left out.
    pub dead: Option<u64>,
    /// What two cores add. The other numbers are then of the second core and its log.
    pub two: Option<Two>,
}

/// The numbers of a search in two cores.
#[derive(Clone, Copy, Debug, PartialEq, Eq)]
pub struct Two {
    /// Live blocks that were allocated after the first log.
    pub fresh: u64,
    /// The sum of their sizes, in bytes.
    pub fresh_bytes: u64,
    /// Words that were read again in blocks kept from the first core.
    pub reread: u64,
}
