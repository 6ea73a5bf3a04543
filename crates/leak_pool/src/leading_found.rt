//! The root words of a core without the ranges of memory that lead to no block: each range is tested as it is found.
ghost use Rattle.std.specs.Prelude.{◌≡◌, false, IfOk};
ghost use Rattle.leak_roots.specs.Places.{IsRange};
ghost use Rattle.leak_pool.specs.Leading.{leads};
ghost use Rattle.leak_pool.specs.LeadingFound.{AreLeadingFound};

use leak_blocks::Live;
use leak_elf::{Image, Rest, Words};
use leak_index::Lookup;
use leak_notes::Threads;
use leak_roots::{Exclusions, RangeTest, Roots};
use leak_scan::{Targets, kept_between, lead_somewhere};
use std::alloc::{AllocError, Global};

/// Whether a range leads to a block, malloc's links to free chunks included.
#[inline(always)]
pub(crate) fn leads_with_links<W: Words, L: Lookup>(
    words: &W,
    lookup: &L,
    range: (u64, u64),
) -> bool
    requires { IsRange range }
    ensures { result ≡ leads false (W.word_at words.now) (L.index lookup.now) range }
{
    if let Some(kept) = kept_between(words, lookup, range.0, range.1) {
        return lead_somewhere(lookup, kept);
    }
    Targets::of_range(words, lookup, range.0, range.1)
        .next()
        .is_some()
}

/// The test that keeps the ranges that lead to a block.
#[derive(Drop)]
struct LeadSomewhere<'a, W: Words, L: Lookup> {
    words: &'a W,
    lookup: &'a L,
}

impl<'a, W: Words, L: Lookup> RangeTest for LeadSomewhere<'a, W, L> {
    ghost keeps = { λ test. leads false (W.word_at test.words.now) (L.index test.lookup.now) };

    fn keeps(&self, range: (u64, u64)) -> bool {
        leads_with_links(self.words, self.lookup, range)
    }
}

/// Finds the root words of a core as [`Roots::find`] does, without the ranges of memory that lead to no block. The list of all
/// ranges is never made: there are about as many as blocks, and hardly one of them leads to a block. What root words lead to
/// stays the same, in the same order. It fails only if memory is refused.
pub fn find_leading_roots<R: Rest, L: Lookup>(
    alloc: Global,
    image: &Image<'_, R>,
    threads: &Threads,
    live: &Live,
    excluded: &Exclusions<'_>,
    lookup: &L,
) -> Result<Roots, AllocError>
    ensures { let left = excluded.now in
        IfOk result (AreLeadingFound (L.index lookup.now) left.unwritable left.small.now
        image.now threads.now live.now.blocks) }
{
    let test = LeadSomewhere {
        words: image,
        lookup,
    };
    Roots::find_where(alloc, image, threads, live, excluded, &test)
}
