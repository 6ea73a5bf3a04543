//! The blocks that count as marked before a later core is looked at.

/// The blocks of a later log that count as marked before its core is looked at, by ascending number.
#[derive(Drop)]
pub struct Carry {
    /// Those that were marked in the earlier core.
    pub kept: Vec<u32>,
    /// Those that are not of the earlier log.
    pub fresh: Vec<u32>,
}
