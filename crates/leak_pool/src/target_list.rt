//! What a block leads to, with a word ahead.

/// What a block leads to.
#[derive(Clone, Copy)]
pub(crate) struct TargetList<'a> {
    pub(crate) targets: &'a [u32],
    /// The first of them, or none if it wasn't read. Nothing goes by it: whoever makes lists of several blocks reads it for each
    /// before the targets of any, so that a processor waits for all of them at once.
    pub(crate) ahead: Option<u32>,
}
