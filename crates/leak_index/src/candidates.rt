//! The blocks that a lookup has to try.
ghost use Rattle.std.specs.Prelude.{◌≡◌, [], IsTrue};
ghost use Rattle.leak_blocks.specs.Span.{AreDisjoint};
ghost use Rattle.leak_index.specs.Bounds.{AreWithin, IsCountUpTo};
ghost use Rattle.leak_index.specs.Hits.{Index, hits_in, hits_of};
ghost use Rattle.leak_index.specs.Leads.{leads};
ghost use Rattle.leak_index.specs.AddressPlaces.{IsAddressPlace};
ghost use Rattle.leak_index.specs.Readings.{distances_of};

use crate::address_place::AddressPlace;
use crate::hits::Hits;
use crate::reading::Reading;
use leak_blocks::{Block, Live};
use std::marker::Model;

/// The live blocks, with the bounds of the words that lead to one, and the reading.
#[derive(Drop)]
pub(crate) struct Candidates<'a> {
    blocks: &'a [Block],
    /// The lowest and the highest word that leads to a block. Most words of a core lie outside.
    low: u64,
    high: u64,
    reading: Reading,
}

impl<'a> Model for Candidates<'a> {
    ghost Value = { Index };

    ghost view = { λ candidates.
        record { blocks = candidates.blocks.now; reading = distances_of candidates.reading } };

    ghost invariant = { λ candidates.
        AreWithin candidates.blocks.now candidates.low candidates.high };
}

impl<'a> Candidates<'a> {
    /// The live blocks and the reading.
    pub(crate) fn new(live: &'a Live, reading: Reading) -> Candidates<'a>
        ensures { result ≡ record { blocks = live.now.blocks; reading = distances_of reading } }
    {
        let blocks = live.blocks();
        if blocks.is_empty() {
            return Candidates {
                blocks,
                low: u64::MAX,
                high: 0,
                reading,
            };
        }
        let last = blocks[blocks.len() - 1];
        Candidates {
            blocks,
            low: blocks[0].start,
            high: last.start + last.size,
            reading,
        }
    }

    /// The blocks by ascending start.
    pub(crate) fn blocks(&self) -> &[Block]
        ensures value { result.now ≡ self.now.blocks }
        ensures disjoint { AreDisjoint result.now }
    {
        self.blocks
    }

    /// Whether the word is out of bounds.
    pub(crate) fn is_out(&self, word: u64) -> bool
        ensures { IsTrue result → hits_of self.now word ≡ [] }
    {
        word < self.low || self.high < word
    }

    /// The blocks that the word leads to, given where it is among them. Each reading lets a word lead to the block that
    /// starts at it, so that no block is read there.
    #[inline(always)]
    pub(crate) fn hits_at(&self, word: u64, place: AddressPlace) -> Hits
        requires { IsAddressPlace self.now.blocks word place }
        ensures { hits_in result ≡ hits_of self.now word }
    {
        let _ = &self.blocks;
        match place {
            AddressPlace::Start(block) => Hits::One(block),
            AddressPlace::After(count) => self.hits_near(word, count),
        }
    }

    /// The blocks that the word leads to, given how many blocks begin at the word or before it. Only the last two of
    /// those are tried: each earlier one ends before the last of them begins.
    pub(crate) fn hits_near(&self, word: u64, count: usize) -> Hits
        requires { IsCountUpTo self.now.blocks word count }
        ensures { hits_in result ≡ hits_of self.now word }
    {
        if count == 0 {
            return Hits::Zero;
        }
        let last = count - 1;
        let here = leads(&self.reading, word, &self.blocks[last]);
        if last == 0 {
            return if here { Hits::One(0) } else { Hits::Zero };
        }
        match (leads(&self.reading, word, &self.blocks[last - 1]), here) {
            (true, true) => Hits::Two(last - 1, last),
            (true, false) => Hits::One(last - 1),
            (false, true) => Hits::One(last),
            (false, false) => Hits::Zero,
        }
    }
}

/// Whether the word leads to the block.
fn leads(reading: &Reading, word: u64, block: &Block) -> bool
    ensures { result ≡ leads (distances_of reading.now) word block.now }
{
    let block = *block;
    if word < block.start {
        return false;
    }
    let distance = word - block.start;
    distance <= reading.last(block.size) && reading.allows(distance)
}
