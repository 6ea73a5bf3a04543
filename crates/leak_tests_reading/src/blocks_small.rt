//! The addresses of small allocations, as ranges.

use crate::blocks::allocate;
use crate::comparisons::same_in;
use leak_blocks::{SmallSpans, Span, replay_with_spans, small_spans};
use leak_mtrace::Log;
use std::alloc::Global;
use std::process::Abort;
use std::test::Fail;

/// Ends the test if these are other ranges.
fn are_ranges(rt: &impl Abort, text: &str, ranges: &[Span], wanted: &[(u64, u64)]) {
    same_in(rt, &text, ranges.len(), wanted.len());
    for (range, row) in ranges.iter().zip(wanted) {
        same_in(rt, &text, (range.first, range.last), *row);
    }
}

/// A log, and the ranges of its small allocations, as the first and the last address of each.
type Ranges = (&'static str, &'static [(u64, u64)]);

/// Ends the test if the small allocations have other ranges, by the lines of the log.
fn have_ranges_by_lines(
    rt: &impl Abort,
    alloc: Global,
    text: &str,
    wanted: &[(u64, u64)],
) -> Result<(), Fail> {
    let log = Log::read(alloc, text.as_bytes())?;
    let spans = small_spans(alloc, &log)?;
    are_ranges(rt, text, spans.ranges(), wanted);
    Ok(())
}

/// Ends the test if the small allocations have other ranges, by the bytes of the log.
fn have_ranges_by_bytes(
    rt: &impl Abort,
    alloc: Global,
    text: &str,
    wanted: &[(u64, u64)],
) -> Result<(), Fail> {
    let (replayed, spans) = replay_with_spans(alloc, text.as_bytes())?;
    are_ranges(rt, text, spans.ranges(), wanted);
    same_in(rt, &text, replayed.whole_len, text.len());
    Ok(())
}

/// Ends the test if the small allocations of a log have other ranges, by its lines or by its bytes.
fn have_ranges(rt: &impl Abort, alloc: Global, cases: &[Ranges]) -> Result<(), Fail> {
    for &(text, wanted) in cases {
        have_ranges_by_lines(rt, alloc, text, wanted)?;
        have_ranges_by_bytes(rt, alloc, text, wanted)?;
    }
    Ok(())
}

static SMALL: [Ranges; 8] = [
    ("+ 0x100 0x20\n- 0x100\n", &[(0x100, 0x11f)]),
    // displaced ones are taken as well
    ("+ 0x100 0x20\n+ 0x110 0x8\n", &[(0x100, 0x11f)]),
    // those that touch are one range, whatever their order
    (
        "+ 0x120 0x10\n+ 0x100 0x20\n- 0x120\n- 0x100\n",
        &[(0x100, 0x12f)],
    ),
    (
        "+ 0x121 0x10\n+ 0x100 0x20\n- 0x121\n- 0x100\n",
        &[(0x100, 0x11f), (0x121, 0x130)],
    ),
    // an allocation of no bytes has its first address, though it is live
    ("+ 0x100 0\n+ 0x102 0\n", &[(0x100, 0x100), (0x102, 0x102)]),
    ("+ 0x1000 0x1ffff\n- 0x1000\n", &[(0x1000, 0x20ffe)]),
    // a move allocates, and a failed one does not
    (
        "+ 0x100 0x8\n< 0x100\n> 0x200 0x8\n- 0x200\n",
        &[(0x100, 0x107), (0x200, 0x207)],
    ),
    (
        "+ 0xffffffffffffffff 0\n+ 0xfffffffffffffff0 0xe\n- 0xfffffffffffffff0\n",
        &[
            (0xffff_ffff_ffff_fff0, 0xffff_ffff_ffff_fffd),
            (0xffff_ffff_ffff_ffff, 0xffff_ffff_ffff_ffff),
        ],
    ),
];

#[test]
fn small_allocations_as_ranges(rt: HostRuntime) -> Result<(), Fail> {
    have_ranges(&rt, rt.alloc(), &SMALL)
}

/// A log with live blocks, and the ranges by its lines and by its bytes. By its bytes no live block is listed, but for
/// those of size 0.
type LiveRanges = (&'static str, &'static [(u64, u64)], &'static [(u64, u64)]);

static LIVE: [LiveRanges; 6] = [
    ("+ 0x100 0x20\n", &[(0x100, 0x11f)], &[]),
    ("+ 0x1000 0x1ffff\n", &[(0x1000, 0x20ffe)], &[]),
    // the last of three at one address is live
    (
        "+ 0x100 0x8\n- 0x100\n+ 0x100 0x20\n- 0x100\n+ 0x100 0x10\n",
        &[(0x100, 0x11f)],
        &[(0x100, 0x11f)],
    ),
    (
        "+ 0x100 0x8\n< 0x100\n> 0x200 0x8\n",
        &[(0x100, 0x107), (0x200, 0x207)],
        &[(0x100, 0x107)],
    ),
    // the live block has its number by the order of the lines, not by that of the addresses
    (
        "+ 0x300 0x8\n+ 0x100 0x8\n+ 0x200 0x8\n- 0x100\n- 0x300\n",
        &[(0x100, 0x107), (0x200, 0x207), (0x300, 0x307)],
        &[(0x100, 0x107), (0x300, 0x307)],
    ),
    (
        "+ 0x100 0\n+ 0x102 0x2\n",
        &[(0x100, 0x100), (0x102, 0x103)],
        &[(0x100, 0x100)],
    ),
];

#[test]
fn small_allocations_outside_live_blocks(rt: HostRuntime) -> Result<(), Fail> {
    for &(text, by_lines, by_bytes) in &LIVE {
        have_ranges_by_lines(&rt, rt.alloc(), text, by_lines)?;
        have_ranges_by_bytes(&rt, rt.alloc(), text, by_bytes)?;
    }
    Ok(())
}

static NONE_SMALL: [Ranges; 4] = [
    ("", &[]),
    ("+ 0x1000 0x20000\n", &[]),
    ("! 0x100 0x20\n- 0x300\n", &[]),
    ("+ (nil) 0x20\n", &[]),
];

#[test]
fn logs_without_a_small_allocation(rt: HostRuntime) -> Result<(), Fail> {
    assert!(rt; SmallSpans::none(rt.alloc()).ranges().is_empty());
    have_ranges(&rt, rt.alloc(), &NONE_SMALL)
}

/// Ends the test if the log has other ranges than these: as many of the size, each 0x40 after the one before it.
fn are_ranges_of(
    rt: &impl Abort,
    alloc: Global,
    text: &str,
    first: u64,
    count: usize,
    size: u64,
) -> Result<(), Fail> {
    let (_, spans) = replay_with_spans(alloc, text.as_bytes())?;
    same_in(rt, &"long log", spans.ranges().len(), count);
    for (range, i) in spans.ranges().iter().zip(0u64..) {
        let start = first.wrapping_add(i.wrapping_mul(0x40));
        let last = start.wrapping_add(size).wrapping_sub(1);
        same_in(rt, &i, (range.first, range.last), (start, last));
    }
    Ok(())
}

/// Many allocations from the highest down, each of which another displaces: first each is apart from the others, and
/// then all are one range.
#[test]
fn many_small_allocations(rt: HostRuntime) -> Result<(), Fail> {
    let mut text = String::new(rt.alloc());
    allocate(&mut text, 0x10fc0, 0x40u64.wrapping_neg(), 64, 0x20)?;
    allocate(&mut text, 0x10000, 0x40, 64, 0x10)?;
    are_ranges_of(&rt, rt.alloc(), text.as_str(), 0x10000, 64, 0x20)?;
    allocate(&mut text, 0x10020, 0x40, 64, 0x20)?;
    allocate(&mut text, 0x10020, 0x40, 64, 0x10)?;
    are_ranges_of(&rt, rt.alloc(), text.as_str(), 0x10000, 1, 0x1000)
}
