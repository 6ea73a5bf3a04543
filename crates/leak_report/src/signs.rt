//! The numbers by which a core and its log may not belong together.

/// What is odd about an input, a core and its log. Each number is of that core and that log.
#[derive(Clone, Copy, Debug, PartialEq, Eq)]
pub struct Signs {
    /// Live blocks of the log.
    pub live: u64,
    /// 1 if something follows the log's last line feed, else 0.
    pub torn: u64,
    /// Give-backs of the log whose address was that of no live block.
    pub unknown: u64,
    /// Allocations of the log that were ended by an allocation.
    pub displaced: u64,
    /// Live blocks of which the core has no chunk in use, or 0 if nobody looked.
    pub misfits: u64,
}
