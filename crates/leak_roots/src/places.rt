//! Ranges of the words in memory outside the live blocks.

ghost use Rattle.std.specs.Prelude.{◌≡◌, ◌+◌, ◌-◌, ◌<◌, ◌≤◌, ℕ, [], max, min, length, filter, not, slice_index_or, OnOk, IfOk};
ghost use Rattle.leak_elf.specs.Segments.{segments_of};
ghost use Rattle.leak_elf.specs.Words.{places};
ghost use Rattle.leak_blocks.specs.declared.block.Block.{Block};
ghost use Rattle.leak_blocks.specs.Small.{AreApart};
ghost use Rattle.leak_roots.specs.Counts.{blocks_up_to, spans_up_to};
ghost use Rattle.leak_roots.specs.Kept.{Adds, AreRangesKept, FitsBelow};
ghost use Rattle.leak_roots.specs.Places.{aligned_places, AreRanges};
ghost use Rattle.leak_roots.specs.Roots.{AreOrdered, has_roots, is_free, is_inside, outside_places};

use crate::inside::Kept;
use crate::range_test::RangeTest;
use leak_blocks::{Block, Span};
use leak_elf::{Image, Rest, Segment};
use std::alloc::AllocError;

/// Adds the words whose bytes lie between two addresses, as one range.
fn push_range<T: RangeTest>(
    kept: &mut Kept<'_>,
    test: &T,
    from: u64,
    to: u64,
) -> Result<(), AllocError>
    requires { FitsBelow from kept.old }
    ensures adds { let keeps = T.keeps test.now in
        OnOk result (Adds keeps from to (aligned_places from to) kept.old kept.new) }
    ensures fits { OnOk result ((addr : ℕ) → to ≤ addr → FitsBelow addr kept.old
        → FitsBelow addr kept.new) }
    ensures few { let spans = kept.old.spans.now in OnOk result
        (length kept.new.memory.items + spans_up_to spans from
        ≤ length kept.old.memory.items + spans_up_to spans (max from to) + min (to - from) 1) }
{
    let first = from.div_ceil(8);
    let last = to / 8;
    if first < last {
        kept.push(test, (8 * first, 8 * last))?;
    }
    Ok(())
}

/// How many blocks begin at the address or before it.
fn count_up_to(blocks: &[Block], addr: u64) -> usize
    requires { AreOrdered blocks.now }
    ensures bound { result ≤ length blocks.now }
    ensures within { (k : ℕ) (d : Block) → k < result
        → (slice_index_or blocks.now k d).start ≤ addr }
    ensures beyond { (k : ℕ) (d : Block) → result ≤ k → k < length blocks.now
        → addr < (slice_index_or blocks.now k d).start }
    ensures count { result ≡ blocks_up_to blocks.now addr }
{
    blocks.partition_point(|block| block.start <= addr)
}

/// Adds the words between two addresses that share no byte with a block.
fn push_gaps<T: RangeTest>(
    kept: &mut Kept<'_>,
    test: &T,
    from: u64,
    to: u64,
    blocks: &[Block],
) -> Result<(), AllocError>
    requires order { from ≤ to }
    requires blocks { AreOrdered blocks.now }
    requires fits { FitsBelow from kept.old }
    ensures adds { let free = filter (is_free blocks.now) (places from to) in
        OnOk result (Adds (T.keeps test.now) from to free kept.old kept.new) }
    ensures fits { OnOk result (FitsBelow to kept.new) }
    ensures few { let spans = kept.old.spans.now in OnOk result
        (length kept.new.memory.items + blocks_up_to blocks.now from + spans_up_to spans from
        ≤ length kept.old.memory.items + blocks_up_to blocks.now to + spans_up_to spans to + 1) }
{
    let first = count_up_to(blocks, from).saturating_sub(1);
    let end = count_up_to(blocks, to);
    let mut cursor = from;
    for i in first..end {
        let block = blocks[i];
        if block.size > 0 {
            push_range(kept, test, cursor, block.start)?;
            cursor = cursor.max(block.start + block.size);
        }
    }
    push_range(kept, test, cursor, to)
}

/// Whether a segment has root words, with memory that can't be written left out or not.
#[tactic(auto, unfolding(crate::specs::Roots::has_roots))]
fn has_roots(segment: &Segment, unwritable: bool) -> bool
    ensures { result ≡ has_roots unwritable segment.now }
{
    segment.writable || !unwritable
}

/// Finds the words that share no byte with a block, of all segments or without memory that can't be written. Of those that
/// aren't inside the spans it puts the ranges that the test keeps into the list, and it says how many words are inside. There
/// are as many ranges as gaps between blocks, so each is cut at the spans and tested as it is found, and no second list is
/// made.
pub(crate) fn find_ranges<R: Rest, T: RangeTest>(
    list: Vec<(u64, u64)>,
    test: &T,
    image: &Image<'_, R>,
    blocks: &[Block],
    unwritable: bool,
    spans: &[Span],
) -> Result<(Vec<(u64, u64)>, u64), AllocError>
    requires none { list.items ≡ [] }
    requires blocks { AreOrdered blocks.now }
    requires apart { AreApart spans.now }
    ensures kept { let all = outside_places unwritable image.now blocks.now in
        let outside = filter (λ a. not (is_inside spans.now a)) all in
        IfOk result (λ found. AreRangesKept (T.keeps test.now) outside found.0.items) }
    ensures ranges { IfOk result (λ found. AreRanges found.0.items) }
    ensures inside { IfOk result (λ found. found.1
        ≡ length (filter (is_inside spans.now) (outside_places unwritable image.now blocks.now))) }
    ensures few { let segments = filter (has_roots unwritable) (segments_of image.now) in
        IfOk result (λ found. length found.0.items
        ≤ length segments + length blocks.now + length spans.now) }
{
    let mut kept = Kept::new(list, spans);
    for segment in image.segments() {
        if has_roots(segment, unwritable) {
            let end = segment.vaddr + segment.filesz;
            push_gaps(&mut kept, test, segment.vaddr, end, blocks)?;
        }
    }
    Ok((kept.memory, kept.inside))
}
