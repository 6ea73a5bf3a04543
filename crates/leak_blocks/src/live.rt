//! The live blocks of a log.
ghost use Rattle.std.specs.Prelude.{◌≡◌, sum_by};
ghost use Rattle.leak_blocks.specs.Live.{Replay};
ghost use Rattle.leak_blocks.specs.Span.{AreAddressed, AreDisjoint, AreSummed};

use crate::block::Block;
use std::marker::Model;

/// The live blocks of a log, and the counts of its lines that do not fit the lines before them.
#[derive(Drop)]
pub struct Live {
    blocks: Vec<Block>,
    unknown: u64,
    displaced: u64,
    bytes: u64,
}

impl Model for Live {
    ghost Value = { Replay };

    ghost view = { λ live.
        record { blocks = live.blocks.items; unknown = live.unknown; displaced = live.displaced } };

    ghost invariant = { λ live. AreSummed live.blocks.items live.bytes };
}

/// The sum of the sizes. Blocks that are apart have less than 2^64 bytes together.
fn total(blocks: &[Block]) -> u64
    requires addressed { AreAddressed blocks.now }
    requires disjoint { AreDisjoint blocks.now }
    ensures { result ≡ sum_by (λ b. b.size) blocks.now }
{
    let mut bytes = 0;
    for block in blocks {
        bytes += block.size;
    }
    bytes
}

impl Live {
    /// The live blocks and the counts of a replay.
    pub(crate) fn new(blocks: Vec<Block>, unknown: u64, displaced: u64) -> Live
        requires addressed { AreAddressed blocks.items }
        requires disjoint { AreDisjoint blocks.items }
        ensures { result
            ≡ record { blocks = blocks.items; unknown = unknown; displaced = displaced } }
    {
        let bytes = total(&blocks);
        Live {
            blocks,
            unknown,
            displaced,
            bytes,
        }
    }

    /// The live blocks by ascending start.
    pub fn blocks(&self) -> &[Block]
        ensures value { result.now ≡ self.now.blocks }
        ensures addressed { AreAddressed result.now }
        ensures disjoint { AreDisjoint result.now }
    {
        self.blocks.as_slice()
    }

    /// The number of give-backs whose address was that of no block live just before the line.
    pub fn unknown(&self) -> u64
        ensures { result ≡ self.now.unknown }
    {
        self.unknown
    }

    /// The number of allocations that were ended by an allocation.
    pub fn displaced(&self) -> u64
        ensures { result ≡ self.now.displaced }
    {
        self.displaced
    }

    /// The sum of the blocks' sizes, in bytes.
    pub fn bytes(&self) -> u64
        ensures { result ≡ sum_by (λ b. b.size) self.now.blocks }
    {
        self.bytes
    }
}
