//! What is known of blocks.
use leak_blocks::Block;

/// What is known of the blocks besides what leads to what, one entry for each.
#[derive(Clone, Copy)]
pub struct BlockTable<'a> {
    /// The blocks, for their sizes.
    pub blocks: &'a [Block],
    /// The number of the text of its caller.
    pub numbers: &'a [u32],
    /// Whether a chain reaches it.
    pub reached: &'a [bool],
    /// Whether it is counted in blocks and bytes.
    pub counted: &'a [bool],
}
