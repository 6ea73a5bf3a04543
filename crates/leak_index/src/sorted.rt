//! A lookup by binary search.
ghost use Rattle.std.specs.Prelude.{◌≡◌};
ghost use Rattle.leak_blocks.specs.Span.{AreDisjoint};
ghost use Rattle.leak_index.specs.Bounds.{IsCountUpTo};
ghost use Rattle.leak_index.specs.Hits.{Index};
ghost use Rattle.leak_index.specs.Readings.{distances_of};

use crate::candidates::Candidates;
use crate::hits::{Hits, Lookup};
use crate::reading::Reading;
use leak_blocks::{Block, Live};
use std::marker::Model;

/// A lookup by binary search over the blocks. It borrows them and takes no memory.
#[derive(Drop)]
pub struct Sorted<'a> {
    candidates: Candidates<'a>,
}

impl<'a> Model for Sorted<'a> {
    ghost Value = { Index };

    ghost view = { λ sorted. sorted.candidates };
}

impl<'a> Sorted<'a> {
    /// The lookup among the blocks by the reading.
    pub fn new(live: &'a Live, reading: Reading) -> Sorted<'a>
        ensures { result ≡ record { blocks = live.now.blocks; reading = distances_of reading } }
    {
        Sorted {
            candidates: Candidates::new(live, reading),
        }
    }
}

impl<'a> Lookup for Sorted<'a> {
    ghost index = { λ sorted. sorted };

    fn hits(&self, word: u64) -> Hits {
        if self.candidates.is_out(word) {
            return Hits::Zero;
        }
        let count = count_up_to(self.candidates.blocks(), word);
        self.candidates.hits_near(word, count)
    }
}

/// How many blocks begin at the address or before it.
pub(crate) fn count_up_to(blocks: &[Block], address: u64) -> usize
    requires { AreDisjoint blocks.now }
    ensures { IsCountUpTo blocks.now address result }
{
    blocks.partition_point(|block| block.start <= address)
}
