//! The sieve for words of a core.
ghost use Rattle.std.specs.Prelude.{◌≡◌, ◌*◌, ◌+◌, ◌/◌, ◌^◌, ◌<◌, ◌≤◌, ℕ, length};
ghost use Rattle.std.specs.Int.{w64};
ghost use Rattle.leak_blocks.specs.Span.{AreAddressed};
ghost use Rattle.leak_elf.specs.Fields.{number_at};
ghost use Rattle.leak_sift.specs.Grouped.{AreBits, is_kept};
ghost use Rattle.leak_sift.specs.Kept.{is_near, kept_of};
ghost use Rattle.leak_sift.specs.Passed.{IsRange};
ghost use Rattle.leak_sift.specs.Sifted.{IsNextKept, run_of};
ghost use Rattle.leak_sparse.specs.Pushed.{word_of};

use crate::group::bits_between;
use crate::near::{calm_end, count_passed, first_near, is_near, is_next_size_place, near_bits};
use crate::words::{count_outside, count_zeros, word_at};
use leak_blocks::{Block, Live};
use std::marker::Model;

/// The live blocks of a log, and whether links to free chunks are left out: which words of a core are kept.
///
/// Words can be asked for in any order. If their places ascend, each takes constant time on average.
#[derive(Drop)]
pub struct Sieve<'a> {
    blocks: &'a [Block],
    links: bool,
    /// The lowest and the highest word in range.
    low: u64,
    high: u64,
    /// How many blocks have their size word at the last place or before it.
    passed: usize,
    /// From the first of these places up to the second, that one excluded, no place is near a block.
    calm: (u64, u64),
}

impl<'a> Model for Sieve<'a> {
    ghost use Rattle.std.specs.Prelude.{◌≤◌, length};
    ghost use Rattle.leak_sift.specs.Kept.{Rule};
    ghost use Rattle.leak_sift.specs.Passed.{AreCalm, IsSieve};

    ghost Value = { Rule };

    ghost view = { λ sieve. record { blocks = sieve.blocks.now; links = sieve.links } };

    ghost invariant = { λ sieve.
        IsSieve sieve.blocks.now sieve.low sieve.high sieve.passed
        × AreCalm sieve.blocks.now sieve.links sieve.calm.0 sieve.calm.1 };
}

impl<'a> Sieve<'a> {
    /// The sieve for the live blocks. `links` says whether the search leaves out links to free chunks.
    pub fn new(live: &'a Live, links: bool) -> Sieve<'a>
        ensures { result ≡ record { blocks = live.now.blocks; links = links } }
    {
        let blocks = live.blocks();
        let (low, high) = range_of(blocks);
        Sieve {
            blocks,
            links,
            low,
            high,
            passed: 0,
            calm: (0, 0),
        }
    }

    /// The same sieve, for other places.
    pub(crate) fn again(&self) -> Sieve<'a>
        ensures { result ≡ self.now }
    {
        Sieve {
            blocks: self.blocks,
            links: self.links,
            low: self.low,
            high: self.high,
            passed: self.passed,
            calm: self.calm,
        }
    }

    /// What is kept of the word at the place, which is an address: the word itself, or 0.
    #[inline]
    pub fn kept(&mut self, place: u64, word: u64) -> u64
        ensures kept { result ≡ kept_of self.old.blocks self.old.links place word }
        ensures same { self.new ≡ self.old }
    {
        if word == 0 || (self.low <= word && word <= self.high) {
            return word;
        }
        if self.is_near(place) { word } else { 0 }
    }

    /// The first word from the number on that is kept and isn't 0, with its number. The bytes are the words, 8 each, and
    /// the first of them is at the place.
    pub(crate) fn next_kept(
        &mut self,
        place: u64,
        bytes: &[u8],
        from: usize,
    ) -> Option<(usize, u64)>
        requires fits { place + length bytes.now < 2 ^ 64 + 8 }
        requires within { from ≤ length bytes.now / 8 }
        ensures next { IsNextKept (run_of self.old place bytes.now) from result }
        ensures same { self.new ≡ self.old }
    {
        let count = bytes.len() / 8;
        let mut number = from;
        while number < count {
            let at = 8 * number;
            number += self.count_dropped(place + at as u64, &bytes[at..]);
            if number == count {
                return None;
            }
            let at = 8 * number;
            let word = self.kept(place + at as u64, word_at(bytes, at));
            if word != 0 {
                return Some((number, word));
            }
            number += 1;
        }
        None
    }

    /// Goes to a place that may be far from the last.
    pub(crate) fn seek(&mut self, place: u64)
        ensures { self.new ≡ self.old }
    {
        self.passed = count_passed(self.blocks, place, self.passed);
    }

    /// Which of 64 words are kept, by bits. The first of them is at the place. Some of them may be 0.
    #[inline(always)]
    pub(crate) fn group_bits(&mut self, place: u64, words: &[[u8; 8]]) -> u64
        requires fits { place + 512 < 2 ^ 64 + 8 }
        requires words { length words.now ≡ 64 }
        ensures bits { AreBits (λ k. is_kept self.old.blocks self.old.links (place + 8 * k) (word_of words.now k)) 64 result }
        ensures same { self.new ≡ self.old }
    {
        let between = bits_between(words, self.low, self.high);
        let first = first_near(self.blocks, self.passed, place);
        let (near, next) = near_bits(self.blocks, self.links, first, place);
        self.passed = next;
        // (then the next words are told at once)
        if near == 0 {
            self.is_near(place);
        }
        near | between
    }

    /// How many of the first words are 0 or left out, as far as that is known at once. The bytes are the words, 8 each,
    /// and the first of them is at the place.
    pub(crate) fn count_dropped(&self, place: u64, bytes: &[u8]) -> usize
        ensures within { result ≤ length bytes.now / 8 }
        ensures dropped { (k : ℕ) → k < result → kept_of self.now.blocks self.now.links
            (place + 8 * k) (number_at w64 bytes.now (8 * k)) ≡ 0 }
    {
        if place < self.calm.0 || self.calm.1 <= place {
            return count_zeros(bytes);
        }
        let calm = (self.calm.1 - place).div_ceil(8);
        let most = calm.min(bytes.len() as u64 / 8) as usize;
        count_outside(bytes, most, self.low, self.high)
    }

    /// Whether the place is near a block. If not, it finds out up to where the next places aren't either.
    fn is_near(&mut self, place: u64) -> bool
        ensures near { result ≡ is_near self.old.blocks self.old.links place }
        ensures same { self.new ≡ self.old }
    {
        // (most near places are this one, and then no block has to be looked for)
        if is_next_size_place(self.blocks, self.passed, place) {
            self.passed += 1;
            return true;
        }
        self.passed = count_passed(self.blocks, place, self.passed);
        // (most other places are near no block, which this tells too)
        let end = calm_end(self.blocks, self.links, self.passed, place);
        if place < end {
            self.calm = (place, end);
            return false;
        }
        is_near(self.blocks, self.links, self.passed, place)
    }
}

/// The lowest and the highest word that isn't outside the live blocks: the start of the first, and the end of the last. The
/// words between them are those that may lead to a block. Without blocks the lowest is above the highest.
pub fn range_of(blocks: &[Block]) -> (u64, u64)
    requires { AreAddressed blocks.now }
    ensures { IsRange blocks.now result.0 result.1 }
{
    if blocks.is_empty() {
        return (u64::MAX, 0);
    }
    let last = blocks[blocks.len() - 1];
    (blocks[0].start, last.start + last.size)
}
