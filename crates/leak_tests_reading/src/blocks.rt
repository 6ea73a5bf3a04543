//! Live blocks of a log.

use crate::comparisons::same_in;
use leak_blocks::{Block, Live, Replayed, replay, replay_bytes, replay_with_spans};
use leak_mtrace::{Log, LogError};
use std::alloc::Global;
use std::fmt::Write;
use std::process::Abort;
use std::test::Fail;

/// A log, its live blocks as start, size and line, and how many of its lines are unknown, displaced and torn.
pub(crate) type Case = (&'static str, &'static [(u64, u64, usize)], Counts);

/// How many lines are unknown, displaced and torn.
pub(crate) type Counts = (u64, u64, u64);

fn counts_of(live: &Live, torn: u64) -> Counts {
    (live.unknown(), live.displaced(), torn)
}

/// Ends the test if the log comes to something else by its lines.
fn agrees(rt: &impl Abort, alloc: Global, text: &str, found: &Replayed) -> Result<(), Fail> {
    let log = Log::read(alloc, text.as_bytes())?;
    let live = replay(alloc, &log)?;
    let counts = counts_of(&found.live, found.torn);
    same_in(rt, &text, live.blocks(), found.live.blocks());
    same_in(rt, &text, counts_of(&live, log.torn()), counts);
    same_in(rt, &text, log.whole_len(), found.whole_len);
    Ok(())
}

/// Ends the test if these are other blocks.
fn are(rt: &impl Abort, text: &str, blocks: &[Block], wanted: &[(u64, u64, usize)]) {
    same_in(rt, &text, blocks.len(), wanted.len());
    for (block, row) in blocks.iter().zip(wanted) {
        same_in(rt, &text, (block.start, block.size, block.line), *row);
    }
}

/// Ends the test if the log comes to other live blocks or counts, by its bytes or by its lines.
fn comes_to(rt: &impl Abort, alloc: Global, case: &Case) -> Result<(), Fail> {
    let (text, blocks, counts) = *case;
    let found = replay_bytes(alloc, text.as_bytes())?;
    are(rt, text, found.live.blocks(), blocks);
    same_in(rt, &text, counts_of(&found.live, found.torn), counts);
    agrees(rt, alloc, text, &found)
}

/// Ends the test if one of the logs comes to something else.
pub(crate) fn replays(rt: &impl Abort, alloc: Global, cases: &[Case]) -> Result<(), Fail> {
    for case in cases {
        comes_to(rt, alloc, case)?;
    }
    Ok(())
}

/// Allocations that touch or overlap others.
static MEETINGS: [Case; 6] = [
    (
        "+ 0x100 0x10\n+ 0x110 0x10\n",
        &[(0x100, 16, 1), (0x110, 16, 2)],
        (0, 0, 0),
    ),
    ("+ 0x100 0\n+ 0x100 0\n", &[(0x100, 0, 2)], (0, 1, 0)),
    (
        "+ 0x100 0x10\n+ 0x120 0x10\n+ 0x108 0x20\n",
        &[(0x108, 32, 3)],
        (0, 2, 0),
    ),
    (
        "+ 0x100 0x10\n+ 0x108 0x10\n- 0x100\n",
        &[(0x108, 16, 2)],
        (1, 1, 0),
    ),
    // a block may end with the last address
    (
        "+ 0xffffffffffffffff 0\n+ 0xfffffffffffffff0 0xf\n",
        &[
            (0xffff_ffff_ffff_fff0, 15, 2),
            (0xffff_ffff_ffff_ffff, 0, 1),
        ],
        (0, 0, 0),
    ),
    // one allocation ends many
    (
        "+ 0x100 0x1\n+ 0x101 0x1\n+ 0x102 0\n+ 0x103 0x1\n+ 0x101 0x2\n",
        &[(0x100, 1, 1), (0x101, 2, 5), (0x103, 1, 4)],
        (0, 2, 0),
    ),
];

#[test]
fn allocations_that_meet_others(rt: HostRuntime) -> Result<(), Fail> {
    replays(&rt, rt.alloc(), &MEETINGS)
}

/// Give-backs, moves and lines that allocate nothing.
static ENDS: [Case; 6] = [
    ("+ 0x100 0x10\n- 0x100\n- 0x100\n", &[], (1, 0, 0)),
    (
        "+ 0x100 0x10\n< 0x100\n> 0x200 0x20\n",
        &[(0x200, 32, 3)],
        (0, 0, 0),
    ),
    ("+ 0x100 0x10\n! 0x100 0x20\n", &[(0x100, 16, 1)], (0, 0, 0)),
    // a give-back inside a block, or of nothing, ends none; the torn line is not a line
    (
        "+ 0x10100 0x20\n+ 0x10110 0x20\n- 0x10300\n- 0x10118\n- 0x10110",
        &[(0x10110, 32, 2)],
        (2, 1, 1),
    ),
    (
        "+ 0x10100 0x20\n+ 0x10200 0x10\n- 0x10100\n",
        &[(0x10200, 16, 2)],
        (0, 0, 0),
    ),
    // nothing is allocated or given back at address 0
    ("+ (nil) 0x10\n- (nil)\n", &[], (0, 0, 0)),
];

#[test]
fn lines_that_end_blocks_or_none(rt: HostRuntime) -> Result<(), Fail> {
    replays(&rt, rt.alloc(), &ENDS)
}

static REFUSED: [(&str, LogError); 3] = [
    ("+ 0x100 0x20\n+ 0x100\n", LogError::BadLine(2)),
    ("+ 0x100\n+ 0xffffffffffffffff 0x1\n", LogError::BadLine(1)),
    ("+ 0xffffffffffffffff 0x1\n+ 0x100\n", LogError::Extent(1)),
];

/// Why the log is refused, without its small allocations and with them.
fn refusals(alloc: Global, text: &str) -> [Option<LogError>; 2] {
    let without = replay_bytes(alloc, text.as_bytes()).err();
    [without, replay_with_spans(alloc, text.as_bytes()).err()]
}

#[test]
fn logs_that_are_refused(rt: HostRuntime) {
    for &(text, wanted) in &REFUSED {
        let found = refusals(rt.alloc(), text);
        same_in(&rt, &text, found, [Some(wanted), Some(wanted)]);
    }
}

/// A log of two blocks, and the callers in the order of their addresses.
const TWO: &str = "+ 0x10200 0x10\n@ ./a.out:[0x401136] + 0x10100 0x20\n";

static CALLERS: [&str; 2] = ["./a.out:[0x401136]", ""];

/// The live blocks of a log.
fn lives(alloc: Global, text: &str) -> Result<Live, Fail> {
    let log = Log::read(alloc, text.as_bytes())?;
    Ok(replay(alloc, &log)?)
}

/// Ends the test if the blocks of the log have other callers.
fn have_callers(rt: &impl Abort, blocks: &[Block]) {
    for (block, caller) in blocks.iter().zip(&CALLERS) {
        let found = TWO.get(block.caller.0..block.caller.1);
        same_in(rt, &block.start, found, Some(*caller));
    }
}

#[test]
fn sizes_and_callers(rt: HostRuntime) -> Result<(), Fail> {
    let live = lives(rt.alloc(), TWO)?;
    same_in(
        &rt,
        &TWO,
        (live.bytes(), counts_of(&live, 0)),
        (48, (0, 0, 0)),
    );
    have_callers(&rt, live.blocks());
    Ok(())
}

/// Appends `count` allocations of the size, the first at `from`, each the step after the one before it.
pub(crate) fn allocate(
    text: &mut String,
    from: u64,
    step: u64,
    count: u64,
    size: u64,
) -> Result<(), Fail> {
    for i in 0..count {
        let addr = from.wrapping_add(step.wrapping_mul(i));
        write!(text, "+ {addr:#x} {size:#x}\n")?;
    }
    Ok(())
}

/// Appends `count` give-backs, the first at `from`, each the step after the one before it.
pub(crate) fn give_back(text: &mut String, from: u64, step: u64, count: u64) -> Result<(), Fail> {
    for i in 0..count {
        let addr = from.wrapping_add(step.wrapping_mul(i));
        write!(text, "- {addr:#x}\n")?;
    }
    Ok(())
}

/// Ends the test if the log has another number of live blocks, or other counts, by its bytes or by its lines.
pub(crate) fn has_counts(
    rt: &impl Abort,
    alloc: Global,
    text: &str,
    blocks: usize,
    counts: Counts,
) -> Result<(), Fail> {
    let found = replay_bytes(alloc, text.as_bytes())?;
    let has = (
        found.live.blocks().len(),
        counts_of(&found.live, found.torn),
    );
    same_in(rt, &"long log", has, (blocks, counts));
    agrees(rt, alloc, text, &found)
}

/// A log whose nodes are split and merged again and again.
fn over_and_over(text: &mut String) -> Result<(), Fail> {
    give_back(text, 0x10, 0, 1)?;
    allocate(text, 0x1000, 0x1000, 600, 0x10)?;
    for place in 1..=16u64 {
        allocate(text, place * 0x8000 + 0x20, 0x20, 7, 0x10)?;
    }
    for _ in 0..100u64 {
        for place in 1..=16u64 {
            allocate(text, place * 0x8000 + 0x100, 0x20, 2, 0x10)?;
        }
        for place in 1..=16u64 {
            give_back(text, place * 0x8000 + 0x100, 0x20, 2)?;
        }
    }
    give_back(text, 0x10, 0, 1)?;
    allocate(text, 0x1008, 0, 1, 0x10)
}

/// Arenas of the replay are used up, since nodes are split and merged again and again.
#[test]
fn nodes_made_over_and_over(rt: HostRuntime) -> Result<(), Fail> {
    let mut text = String::new(rt.alloc());
    over_and_over(&mut text)?;
    has_counts(&rt, rt.alloc(), text.as_str(), 600 + 16 * 7, (2, 1, 0))
}
