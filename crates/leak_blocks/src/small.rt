//! The addresses of small allocations, live or given back.

ghost use Rattle.std.specs.Prelude.{◌≡◌, ◌+◌, ◌^◌, ◌<◌, ◌≤◌, ◌||◌, ℕ, All, IfOk, OnOk, List, [], length, take};
ghost use Rattle.std.specs.List.Sorted.{IsNonDecreasingBy};
ghost use Rattle.leak_mtrace.specs.Log.{LinesFit};
ghost use Rattle.leak_mtrace.specs.declared.line.Line.{Line};
ghost use Rattle.leak_blocks.specs.declared.small.Span.{Span};
ghost use Rattle.leak_blocks.specs.Live.{replay_of};
ghost use Rattle.leak_blocks.specs.Numbers.{HavePlacesOf, IsStageAfter};
ghost use Rattle.leak_blocks.specs.Span.{AreAddressed};
ghost use Rattle.leak_blocks.specs.Windows.{all_blocks_of};
ghost use Rattle.leak_blocks.specs.Small.{is_small, is_listed, span_at, small_spans_of, small_block_spans, holds, is_covered, AreApart, AreMarksOf, AreSpans, CoverSame, CoverSameOutside, IsOutsideMarked};

use crate::block::Block;
use crate::replaying::is_allocation;
use crate::stage::Stage;
use leak_mtrace::{Line, Log};
use std::alloc::{AllocError, Global};
use std::marker::Model;

/// A range of addresses, by its first and its last, so that it can end with the last address of all.
#[derive(Clone, Copy, Debug, PartialEq, Eq)]
pub struct Span {
    /// The first address.
    pub first: u64,
    /// The last address, which is in the range.
    pub last: u64,
}

/// The bytes from which on glibc's malloc maps a block by itself (the first value of its `M_MMAP_THRESHOLD`).
const MAPPED_BYTES: u64 = 131_072;

/// The addresses of small allocations, as ranges.
#[derive(Drop)]
pub struct SmallSpans {
    ranges: Vec<Span>,
}

impl Model for SmallSpans {
    ghost Value = { List Span };

    ghost view = { λ spans. spans.ranges.items };

    ghost invariant = { λ spans. AreApart spans.ranges.items };
}

/// Whether the line allocates a block that glibc's malloc takes from a heap.
fn is_small(line: &Line) -> bool
    ensures { result ≡ is_small line.now }
{
    is_allocation(line) && line.size < MAPPED_BYTES
}

/// The addresses of an allocation at this address and of this size. An allocation of 0 bytes has its first address.
fn span_at(start: u64, size: u64) -> Span
    requires { start + size < 2 ^ 64 }
    ensures { result ≡ span_at start size }
{
    Span {
        first: start,
        last: start + (size.max(1) - 1),
    }
}

/// Adds a span, or lengthens the last one if both begin at one address.
fn add(spans: &mut Vec<Span>, span: Span) -> Result<(), AllocError>
    requires each { AreSpans spans.old.items }
    requires one { span.first ≤ span.last }
    ensures each { OnOk result (AreSpans spans.new.items) }
    ensures same { OnOk result ((a : ℕ) → is_covered spans.new.items a
        ≡ (is_covered spans.old.items a || holds a span)) }
{
    let Some(last) = spans.pop() else {
        spans.push(span)?;
        return Ok(());
    };
    if last.first == span.first {
        let longer = last.last.max(span.last);
        spans.push(Span {
            last: longer,
            ..span
        })?;
        return Ok(());
    }
    spans.push(last)?;
    spans.push(span)?;
    Ok(())
}

/// Spans that have the addresses of the small allocations. An address that is used again at once has one of them.
fn spans_of(alloc: Global, lines: &[Line]) -> Result<Vec<Span>, AllocError>
    requires { LinesFit lines.now }
    ensures each { IfOk result (λ spans. AreSpans spans.items) }
    ensures same { IfOk result (λ spans. CoverSame spans.items (small_spans_of lines.now)) }
{
    let mut spans = Vec::with_capacity(alloc, lines.len())?;
    for line in lines {
        if is_small(line) {
            add(&mut spans, span_at(line.addr, line.size))?;
        }
    }
    Ok(spans)
}

/// For each of so many allocations, whether its number is among these.
fn marks_of(alloc: Global, count: usize, numbers: &[usize]) -> Result<Vec<bool>, AllocError>
    requires { All (λ n. n < count) numbers.now }
    ensures { IfOk result (λ marks. AreMarksOf count numbers.now marks.items) }
{
    let mut marks = vec![in alloc; false; count]?;
    for number in numbers {
        marks[*number] = true;
    }
    Ok(marks)
}

/// Whether the block's span is listed. Of small blocks only a live one that has a byte is left out: no root word is in
/// it. The span of a block of size 0 has an address, which is in no block.
fn is_listed(block: &Block, live: bool) -> bool
    ensures { result ≡ is_listed live block.now }
{
    block.size < MAPPED_BYTES && (!live || block.size == 0)
}

/// Spans that have the addresses of the small blocks outside the live ones. At first there is room for so many.
fn block_spans(
    alloc: Global,
    blocks: &[Block],
    live: &[bool],
    room: usize,
) -> Result<Vec<Span>, AllocError>
    requires addressed { AreAddressed blocks.now }
    requires long { length live.now ≡ length blocks.now }
    ensures each { IfOk result (λ spans. AreSpans spans.items) }
    ensures same { (a : ℕ) → IsOutsideMarked blocks.now live.now a
        → IfOk result (λ spans. is_covered spans.items a ≡ is_covered (small_block_spans blocks.now) a) }
{
    let mut spans = Vec::with_capacity(alloc, room)?;
    for (number, block) in blocks.iter().enumerate() {
        if is_listed(block, live[number]) {
            add(&mut spans, span_at(block.start, block.size))?;
        }
    }
    Ok(spans)
}

/// Sorts the spans by ascending first address. Most logs by capture have them nearly so, and the stable sort keeps what
/// is.
fn sort(alloc: Global, spans: &mut [Span]) -> Result<(), AllocError>
    requires { AreSpans spans.old }
    ensures ascending { OnOk result (IsNonDecreasingBy (λ s. s.first) spans.new) }
    ensures spans { AreSpans spans.new }
    ensures same { CoverSame spans.new spans.old }
{
    spans.sort_by_key(alloc, |span| span.first)?;
    Ok(())
}

/// Makes ranges that are apart of spans by ascending first address, at the front. Returns how many they are.
fn merge(spans: &mut [Span]) -> usize
    requires ascending { IsNonDecreasingBy (λ s. s.first) spans.old }
    requires spans { AreSpans spans.old }
    ensures within { result ≤ length spans.old }
    ensures apart { AreApart (take result spans.new) }
    ensures same { CoverSame (take result spans.new) spans.old }
{
    if spans.is_empty() {
        return 0;
    }
    let mut open = spans[0];
    let mut closed = 0;
    for next in 1..spans.len() {
        let span = spans[next];
        if span.first <= open.last.saturating_add(1) {
            open.last = open.last.max(span.last);
        } else {
            spans[closed] = open;
            closed += 1;
            open = span;
        }
    }
    spans[closed] = open;
    closed + 1
}

/// The addresses of the spans as ranges that are apart, in the memory of the spans. The rest of it is given back.
pub fn joined(alloc: Global, spans: Vec<Span>) -> Result<SmallSpans, AllocError>
    requires { AreSpans spans.items }
    ensures { IfOk result (λ ranges. CoverSame ranges spans.items) }
{
    let mut ranges = spans;
    sort(alloc, ranges.as_mut_slice())?;
    let count = merge(ranges.as_mut_slice());
    ranges.truncate(count);
    ranges.shrink_to_fit();
    Ok(SmallSpans { ranges })
}

impl Stage {
    /// The addresses of the small allocations so far, as far as they are outside the live blocks. No allocation may have
    /// been let go.
    pub fn small_spans(&self, alloc: Global) -> Result<SmallSpans, AllocError>
        requires { (lines : List Line) × LinesFit lines × IsStageAfter lines self.now
            × HavePlacesOf lines (all_blocks_of self.now) }
        ensures { IfOk result (λ spans. (lines : List Line) → IsStageAfter lines self.now
            → HavePlacesOf lines (all_blocks_of self.now)
            → CoverSameOutside (replay_of lines).blocks spans (small_spans_of lines)) }
    {
        let count = self.allocated.len();
        let live = marks_of(alloc, count, &self.numbers)?;
        let ended = count.saturating_sub(self.numbers.len());
        joined(alloc, block_spans(alloc, &self.allocated, &live, ended)?)
    }
}

impl SmallSpans {
    /// No address.
    pub fn none(alloc: Global) -> SmallSpans
        ensures { result ≡ [] }
    {
        SmallSpans {
            ranges: Vec::new(alloc),
        }
    }

    /// The addresses as ranges, by ascending address. Between two of them is an address that is in none.
    pub fn ranges(&self) -> &[Span]
        ensures value { result.now ≡ self.now }
        ensures apart { AreApart result.now }
    {
        self.ranges.as_slice()
    }
}

/// The addresses of the log's small allocations: each span of fewer than 131,072 bytes, whether its block is live, was
/// given back or was displaced.
///
/// While they are found it takes 16 bytes for each line, and as much again for each small allocation unless these
/// ascend. It is for libraries and tests: the program goes by [`replay_with_spans`](crate::replay_with_spans).
pub fn small_spans(alloc: Global, log: &Log) -> Result<SmallSpans, AllocError>
    ensures { IfOk result (λ spans. CoverSame spans (small_spans_of log.now.lines)) }
{
    joined(alloc, spans_of(alloc, log.lines())?)
}
