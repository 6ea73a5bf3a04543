//! Leaving out the places inside spans: freed memory, slack and dead stack.

ghost use Rattle.std.specs.Prelude.{◌≡◌, ◌+◌, ◌++◌, ◌<◌, ◌≤◌, ◌*◌, ◌%◌, ℕ, length, slice_index_or, filter, not, OnOk, IfOk, IsTrue, IsFalse};
ghost use Rattle.leak_blocks.specs.declared.small.Span.{Span};
ghost use Rattle.leak_blocks.specs.Small.{AreApart};
ghost use Rattle.leak_roots.specs.Counts.{spans_up_to};
ghost use Rattle.leak_roots.specs.Kept.{Adds, FitsBelow};
ghost use Rattle.leak_roots.specs.Places.{memory_places, addresses_in, IsRange, AreRanges};
ghost use Rattle.leak_roots.specs.Roots.{is_inside};

use crate::range_test::{AllRanges, RangeTest};
use leak_blocks::Span;
use std::alloc::{AllocError, Global};

/// Places that are all inside spans, or all outside them.
#[derive(Clone, Copy)]
struct Stretch {
    /// Whether they are inside spans.
    inside: bool,
    /// Where they end, excluded: a multiple of 8.
    end: u64,
    /// How many of the spans end before the last byte of the first place.
    passed: usize,
}

/// Whether at least `many` of the spans end before the address.
fn are_past(spans: &[Span], many: usize, addr: u64) -> bool
    requires { AreApart spans.now }
    ensures bound { IsTrue result → many ≤ length spans.now }
    ensures within { IsTrue result → (k : ℕ) (d : Span) → k < many
        → (slice_index_or spans.now k d).last < addr }
{
    many <= spans.len() && (many == 0 || spans[many - 1].last < addr)
}

/// How many of the spans end before the address, found by a search among all.
fn search_before(spans: &[Span], addr: u64) -> usize
    requires { AreApart spans.now }
    ensures bound { result ≤ length spans.now }
    ensures within { (k : ℕ) (d : Span) → k < result → (slice_index_or spans.now k d).last < addr }
    ensures beyond { (k : ℕ) (d : Span) → result ≤ k → k < length spans.now
        → addr ≤ (slice_index_or spans.now k d).last }
{
    spans.partition_point(|span| span.last < addr)
}

/// How many of the spans end before the address. Those that were passed for an address below it are not looked at again.
fn count_before(spans: &[Span], passed: usize, addr: u64) -> usize
    requires { AreApart spans.now }
    ensures bound { result ≤ length spans.now }
    ensures within { (k : ℕ) (d : Span) → k < result → (slice_index_or spans.now k d).last < addr }
    ensures beyond { (k : ℕ) (d : Span) → result ≤ k → k < length spans.now
        → addr ≤ (slice_index_or spans.now k d).last }
{
    if !are_past(spans, passed, addr) {
        return search_before(spans, addr);
    }
    let mut count = passed;
    while count < spans.len() && spans[count].last < addr {
        count += 1;
    }
    count
}

/// The first places from `from` on, up to `to` at most, that are all inside or all outside. `passed` spans end before them.
fn stretch_from(spans: &[Span], passed: usize, from: u64, to: u64) -> Stretch
    requires apart { AreApart spans.now }
    requires range { IsRange (from, to) }
    ensures some { from < result.end }
    ensures within { result.end ≤ to }
    ensures multiple { result.end % 8 ≡ 0 }
    ensures alike { (a : ℕ) → from ≤ a → a < result.end → a % 8 ≡ 0
        → is_inside spans.now a ≡ result.inside }
    ensures cut { IsFalse result.inside → result.end < to
        → spans_up_to spans.now from < spans_up_to spans.now result.end }
{
    let last = from + 7;
    let next = count_before(spans, passed, last);
    if next == spans.len() {
        return Stretch {
            inside: false,
            end: to,
            passed: next,
        };
    }
    let span = spans[next];
    let inside = span.first <= from;
    let words = if inside {
        (span.last - last) / 8 + 1
    } else {
        (span.first - from).div_ceil(8)
    };
    Stretch {
        inside,
        end: from + 8 * words.min((to - from) / 8),
        passed: next,
    }
}

/// The places of ranges that are added by ascending address, without those inside the spans. A test says which ranges of
/// the others are kept.
#[derive(Drop)]
pub(crate) struct Kept<'a> {
    /// The ranges that are kept, of places that aren't inside.
    pub(crate) memory: Vec<(u64, u64)>,
    /// How many places were inside.
    pub(crate) inside: u64,
    spans: &'a [Span],
    /// How many of the spans the ranges have passed.
    passed: usize,
}

impl<'a> Kept<'a> {
    /// Begins with these ranges, which are kept as they are.
    pub(crate) fn new(memory: Vec<(u64, u64)>, spans: &'a [Span]) -> Kept<'a>
        ensures memory { result.memory ≡ memory }
        ensures inside { result.inside ≡ 0 }
        ensures spans { result.spans.now ≡ spans.now }
    {
        Kept {
            memory,
            inside: 0,
            spans,
            passed: 0,
        }
    }

    /// Adds the places of a range that aren't inside, and counts the others. Where the spans cut the range, each part is
    /// tested by itself. The spans are passed as the ranges ascend.
    pub(crate) fn push<T: RangeTest>(
        &mut self,
        test: &T,
        range: (u64, u64),
    ) -> Result<(), AllocError>
        requires range { IsRange range }
        requires fits { FitsBelow range.0 self.old }
        ensures adds { let keeps = T.keeps test.now in
            OnOk result (Adds keeps range.0 range.1 (addresses_in range) self.old self.new) }
        ensures fits { OnOk result (FitsBelow range.1 self.new) }
        ensures cuts { let spans = self.old.spans.now in OnOk result
            (length self.new.memory.items + spans_up_to spans range.0
            ≤ length self.old.memory.items + spans_up_to spans range.1 + 1) }
    {
        let (mut from, to) = range;
        while from < to {
            let stretch = stretch_from(self.spans, self.passed, from, to);
            if stretch.inside {
                self.inside += (stretch.end - from) / 8;
            } else if test.keeps((from, stretch.end)) {
                self.memory.push((from, stretch.end))?;
            }
            from = stretch.end;
            self.passed = stretch.passed;
        }
        Ok(())
    }
}

/// How many of the ranges end before the first span begins. No place of theirs is inside.
fn count_ahead(memory: &[(u64, u64)], spans: &[Span]) -> usize
    requires ranges { AreRanges memory.now }
    requires apart { AreApart spans.now }
    ensures bound { result ≤ length memory.now }
    ensures ahead { (k j : ℕ) (r : ℕ × ℕ) (d : Span) → k < result → j < length spans.now
        → (slice_index_or memory.now k r).1 ≤ (slice_index_or spans.now j d).first }
{
    match spans.first() {
        Some(span) => memory.partition_point(|range| range.1 <= span.first),
        None => 0,
    }
}

/// The places in the ranges that aren't inside, and how many are. The ranges ahead of all spans are copied at once, since there are
/// as many as gaps between blocks.
fn keep_others(
    alloc: Global,
    memory: &[(u64, u64)],
    spans: &[Span],
) -> Result<(Vec<(u64, u64)>, u64), AllocError>
    requires apart { AreApart spans.now }
    requires ranges { AreRanges memory.now }
    ensures places { IfOk result (λ found.
        memory_places found.0.items
        ≡ filter (λ a. not (is_inside spans.now a)) (memory_places memory.now)) }
    ensures ranges { IfOk result (λ found. AreRanges found.0.items) }
    ensures inside { IfOk result (λ found.
        found.1 ≡ length (filter (is_inside spans.now) (memory_places memory.now))) }
    ensures cuts { IfOk result (λ found.
        length found.0.items ≤ length memory.now + length spans.now) }
{
    let ahead = count_ahead(memory, spans);
    let mut kept = Kept::new(memory[..ahead].to_vec(alloc)?, spans);
    for k in ahead..memory.len() {
        kept.push(&AllRanges, memory[k])?;
    }
    Ok((kept.memory, kept.inside))
}

/// The places in the ranges that aren't inside, and how many are. Without spans these are the ranges.
pub(crate) fn leave_out(
    alloc: Global,
    memory: Vec<(u64, u64)>,
    spans: &[Span],
) -> Result<(Vec<(u64, u64)>, u64), AllocError>
    requires apart { AreApart spans.now }
    requires ranges { AreRanges memory.items }
    ensures places { IfOk result (λ found.
        memory_places found.0.items
        ≡ filter (λ a. not (is_inside spans.now a)) (memory_places memory.items)) }
    ensures ranges { IfOk result (λ found. AreRanges found.0.items) }
    ensures inside { IfOk result (λ found.
        found.1 ≡ length (filter (is_inside spans.now) (memory_places memory.items))) }
    ensures cuts { IfOk result (λ found.
        length found.0.items ≤ length memory.items + length spans.now) }
{
    if spans.is_empty() {
        return Ok((memory, 0));
    }
    keep_others(alloc, &memory, spans)
}
