//! Blocks in the order in which they are found, each with what led to it first.
ghost use Rattle.std.specs.Prelude.{◌≡◌, ◌≢◌, ℕ, Some, IfSome, IfNone, slice_get};
ghost use Rattle.leak_why.specs.declared.reached_block.ReachedBlock.{ReachedBlock};

/// Some of the root words.
#[derive(Clone, Copy, Debug)]
pub(crate) enum Origin {
    /// Those of the registers.
    Registers,
    /// Those of the range of memory with the number.
    Range(usize),
}

/// What led to a block first.
#[derive(Clone, Copy, Debug)]
pub(crate) enum FirstLead {
    Root(Origin),
    /// The block of an earlier entry, by the entry's number.
    Earlier(usize),
}

/// A block that was found.
#[derive(Clone, Copy, Debug)]
pub(crate) struct ReachedBlock {
    /// Its number among the live blocks.
    pub block: usize,
    pub source: FirstLead,
}

/// The number of the block's entry.
pub(crate) fn number_of(entries: &[ReachedBlock], block: usize) -> Option<usize>
    ensures some { IfSome result
        (λ i. (e : ReachedBlock) × (slice_get entries.now i ≡ Some e) × (e.block ≡ block)) }
    ensures none { IfNone result
        ((i : ℕ) (e : ReachedBlock) → slice_get entries.now i ≡ Some e → e.block ≢ block) }
{
    for (i, entry) in entries.iter().enumerate() {
        if entry.block == block {
            return Some(i);
        }
    }
    None
}
