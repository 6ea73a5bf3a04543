//! The blocks that words lead to, one after another.
ghost use Rattle.std.specs.Prelude.{◌≡◌, ◌+◌, ℕ, List};
ghost use Rattle.std.specs.Iterator.{YieldsFirst, item_count};
ghost use Rattle.std.specs.List.{cons_option};
ghost use Rattle.std.specs.Option.{option_copied};
ghost use Rattle.leak_elf.specs.Words.{words_between};
ghost use Rattle.leak_scan.specs.Targets.{targets_of, block_words, block_words_on};
ghost use Rattle.leak_scan.specs.Positions.{listed_word, words_from};
ghost use Rattle.leak_scan.specs.RootWords.{range_without_links};
ghost use Rattle.leak_scan.specs.Scans.{IsOver, targets_ahead};

use crate::pages::Pages;
use crate::position::Position;
use crate::scan::{Scan, next_on};
use leak_blocks::{Block, Live};
use leak_elf::Words;
use leak_index::{Hits, Lookup};
use std::marker::Model;

/// For each word of a range in order, the numbers of the blocks that it leads to in order. Contracts see the list of
/// those that are still to come.
#[derive(Drop)]
pub struct Targets<'a, W: Words, L: Lookup> {
    words: &'a W,
    lookup: &'a L,
    scan: Scan<'a>,
    /// The second block that the last word led to.
    second: Option<usize>,
}

impl<'a, W: Words, L: Lookup> Model for Targets<'a, W, L> {
    ghost Value = { List ℕ };

    ghost view = { λ t. cons_option t.second
        (targets_ahead (W.word_at t.words.now) (L.index t.lookup.now) t.scan) };

    ghost invariant = { λ t. IsOver (L.index t.lookup.now) t.scan };
}

impl<'a, W: Words, L: Lookup> Targets<'a, W, L> {
    /// Over the words whose 8 bytes all lie from `from` on and before `to`.
    pub fn of_range(words: &'a W, lookup: &'a L, from: u64, to: u64) -> Targets<'a, W, L>
        ensures { result ≡ targets_of (L.index lookup.now)
            (words_between (W.word_at words.now) from to) }
    {
        let count = to.saturating_sub(7).saturating_sub(from);
        Targets::over(words, lookup, None, from, count)
    }

    /// Over the same words as root words, without malloc's links to free chunks: a word that is such a link as far as a
    /// block goes does not lead to it. The live blocks are those of the lookup.
    pub fn of_root_range(
        words: &'a W,
        lookup: &'a L,
        live: &'a Live,
        from: u64,
        to: u64,
    ) -> Targets<'a, W, L>
        requires { (L.index lookup.now).blocks ≡ live.now.blocks }
        ensures { result ≡ range_without_links (W.word_at words.now) (L.index lookup.now) from to }
    {
        Targets {
            words,
            lookup,
            scan: Scan::Roots(live, from, to),
            second: None,
        }
    }

    /// Over the words of the list.
    pub fn of_registers(words: &'a W, registers: &'a [u64], lookup: &'a L) -> Targets<'a, W, L>
        ensures { result ≡ targets_of (L.index lookup.now) registers.now }
    {
        Targets {
            words,
            lookup,
            scan: Scan::Plain(
                None,
                Position {
                    list: registers,
                    run: &[],
                    from: 0,
                    count: 0,
                },
            ),
            second: None,
        }
    }

    /// Over the words whose 8 bytes all lie in the block.
    pub fn of_block(words: &'a W, lookup: &'a L, block: &Block) -> Targets<'a, W, L>
        ensures { result ≡ targets_of (L.index lookup.now)
            (block_words (W.word_at words.now) block.now) }
    {
        let count = block.size.saturating_sub(7);
        Targets::over(words, lookup, None, block.start, count)
    }

    /// Over those of them that are on listed pages.
    pub fn of_block_pages(
        words: &'a W,
        lookup: &'a L,
        block: &Block,
        pages: &'a Pages,
    ) -> Targets<'a, W, L>
        ensures { result ≡ targets_of (L.index lookup.now)
            (block_words_on (W.word_at words.now) pages.now block.now) }
    {
        let count = block.size.saturating_sub(7);
        Targets::over(words, lookup, Some(pages), block.start, count)
    }

    /// Over the words at `count` addresses from `from` on.
    fn over(
        words: &'a W,
        lookup: &'a L,
        pages: Option<&'a Pages>,
        from: u64,
        count: u64,
    ) -> Targets<'a, W, L>
        ensures { let f = listed_word (W.word_at words.now) (option_copied pages.entry) in
            result ≡ targets_of (L.index lookup.now) (words_from f from count) }
    {
        Targets {
            words,
            lookup,
            scan: Scan::Plain(
                pages,
                Position {
                    list: &[],
                    run: &[],
                    from,
                    count,
                },
            ),
            second: None,
        }
    }
}

impl<'a, W: Words, L: Lookup> Iterator for Targets<'a, W, L> {
    type Item = usize;

    ghost next_gives = { YieldsFirst (λ t. t) };

    ghost remaining = { item_count (λ t. t) };

    fn next(&mut self) -> Option<usize> {
        if let Some(block) = self.second.take() {
            return Some(block);
        }
        let (hits, scan) = next_on(self.words, self.lookup, self.scan);
        self.scan = scan;
        match hits {
            Hits::Zero => None,
            Hits::One(block) => Some(block),
            Hits::Two(first, second) => {
                self.second = Some(second);
                Some(first)
            }
        }
    }
}
