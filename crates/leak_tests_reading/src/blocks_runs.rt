//! Live blocks of logs whose allocations ascend, in whole or in runs.

use crate::blocks::{Case, allocate, give_back, has_counts, replays};
use std::test::Fail;

/// Runs of blocks at ascending addresses.
static ASCENDING: [Case; 5] = [
    // blocks in the middle of the run, its last one and others are given back
    (
        "+ 0x100 0x10\n+ 0x110 0x10\n+ 0x120 0x10\n- 0x110\n",
        &[(0x100, 16, 1), (0x120, 16, 3)],
        (0, 0, 0),
    ),
    (
        "+ 0x100 0x10\n+ 0x110 0x10\n- 0x110\n+ 0x110 0x40\n- 0x100\n",
        &[(0x110, 64, 4)],
        (0, 0, 0),
    ),
    (
        "+ 0x100 0x10\n+ 0x110 0x10\n- 0x118\n- 0x90\n- 0x300\n",
        &[(0x100, 16, 1), (0x110, 16, 2)],
        (3, 0, 0),
    ),
    // a run that grows up to the block above it, and into that
    (
        "+ 0x1000 0x10\n+ 0x100 0x10\n+ 0x110 0x10\n+ 0x120 0xee0\n",
        &[
            (0x100, 16, 2),
            (0x110, 16, 3),
            (0x120, 0xee0, 4),
            (0x1000, 16, 1),
        ],
        (0, 0, 0),
    ),
    (
        "+ 0x1000 0x10\n+ 0x100 0x10\n+ 0x110 0x10\n+ 0x120 0xee1\n",
        &[(0x100, 16, 2), (0x110, 16, 3), (0x120, 0xee1, 4)],
        (0, 1, 0),
    ),
];

#[test]
fn allocations_at_ascending_addresses(rt: HostRuntime) -> Result<(), Fail> {
    replays(&rt, rt.alloc(), &ASCENDING)
}

/// Allocations over blocks of a run and beside one.
static BESIDE_A_RUN: [Case; 4] = [
    // all are live, and the first two lie the other way round
    (
        "+ 0x200 0x10\n+ 0x100 0x10\n+ 0x300 0x10\n+ 0x310 0x8\n",
        &[
            (0x100, 16, 2),
            (0x200, 16, 1),
            (0x300, 16, 3),
            (0x310, 8, 4),
        ],
        (0, 0, 0),
    ),
    // an allocation over two blocks of the run
    (
        "+ 0x100 0x10\n+ 0x110 0x10\n+ 0x120 0x10\n+ 0x108 0x10\n- 0x100\n",
        &[(0x108, 16, 4), (0x120, 16, 3)],
        (1, 2, 0),
    ),
    // moves out of the run, above it, and back
    (
        "+ 0x100 0x10\n+ 0x110 0x10\n< 0x100\n> 0x200 0x20\n< 0x200\n> 0x120 0x40\n",
        &[(0x110, 16, 2), (0x120, 64, 6)],
        (0, 0, 0),
    ),
    // a run between two blocks
    (
        "+ 0x100 0x10\n+ 0x900 0x10\n+ 0x500 0x10\n+ 0x510 0x10\n",
        &[
            (0x100, 16, 1),
            (0x500, 16, 3),
            (0x510, 16, 4),
            (0x900, 16, 2),
        ],
        (0, 0, 0),
    ),
];

#[test]
fn allocations_over_and_beside_a_run(rt: HostRuntime) -> Result<(), Fail> {
    replays(&rt, rt.alloc(), &BESIDE_A_RUN)
}

/// A log of runs in twenty regions, from the highest down.
fn in_regions(text: &mut String) -> Result<(), Fail> {
    for turn in 1..=20u64 {
        let base = (21 - turn) * 0x10000;
        allocate(text, base + 0x40, 0x40, 30, 0x40)?;
        give_back(text, base + 0xc0, 0xc0, 10)?;
        // over the first two of the region, and a give-back of one of them
        allocate(text, base + 0x60, 0, 1, 0x40)?;
        give_back(text, base + 0x40, 0, 1)?;
    }
    Ok(())
}

/// Runs in twenty regions, from the highest down: each is put in the map when the next begins.
#[test]
fn runs_one_after_another(rt: HostRuntime) -> Result<(), Fail> {
    let mut text = String::new(rt.alloc());
    in_regions(&mut text)?;
    has_counts(&rt, rt.alloc(), text.as_str(), 20 * 19, (20, 40, 0))
}

/// Blocks of which others between them were given back.
static GIVEN_BACK_BETWEEN: [Case; 4] = [
    // by ascending address
    (
        "+ 0x100 0x10\n- 0x100\n+ 0x110 0x10\n+ 0x120 0x10\n- 0x120\n+ 0x130 0x10\n",
        &[(0x110, 16, 3), (0x130, 16, 6)],
        (0, 0, 0),
    ),
    // the last two by descending address, and none before its place
    (
        "+ 0x500 0x10\n+ 0x400 0x10\n- 0x500\n- 0x400\n+ 0x300 0x8\n+ 0x200 0x20\n",
        &[(0x200, 32, 6), (0x300, 8, 5)],
        (0, 0, 0),
    ),
    // the first allocation is the last block
    (
        "+ 0x300 0x10\n+ 0x200 0x10\n+ 0x100 0x8\n- 0x200\n",
        &[(0x100, 8, 3), (0x300, 16, 1)],
        (0, 0, 0),
    ),
    // the first block is at its place, and the others change theirs
    (
        "+ 0x100 0x10\n+ 0x200 0x10\n+ 0x400 0x8\n+ 0x300 0x20\n- 0x200\n",
        &[(0x100, 16, 1), (0x300, 32, 4), (0x400, 8, 3)],
        (0, 0, 0),
    ),
];

#[test]
fn blocks_between_which_others_were_given_back(rt: HostRuntime) -> Result<(), Fail> {
    replays(&rt, rt.alloc(), &GIVEN_BACK_BETWEEN)
}

/// Appends a remark that is longer than the part of a log by which its lines are guessed.
fn long_remark(text: &mut String) -> Result<(), Fail> {
    text.push_str("= ")?;
    for _ in 0..7_000u64 {
        text.push_str("0123456789")?;
    }
    text.push('\n')?;
    Ok(())
}

/// Appends blocks in four regions: of each every second block is given back.
fn every_second(text: &mut String) -> Result<(), Fail> {
    for region in 1..=4u64 {
        allocate(text, region * 0x1_0000_0000, 0x20, 1000, 0x20)?;
        give_back(text, region * 0x1_0000_0000, 0x40, 500)?;
    }
    Ok(())
}

/// The log has far more lines than its front suggests, and the blocks ascend.
#[test]
fn ascending_blocks_after_a_long_line(rt: HostRuntime) -> Result<(), Fail> {
    let mut text = String::new(rt.alloc());
    long_remark(&mut text)?;
    every_second(&mut text)?;
    has_counts(&rt, rt.alloc(), text.as_str(), 4 * 500, (0, 0, 0))
}

/// The same, and some blocks descend or are displaced.
#[test]
fn descending_blocks_after_a_long_line(rt: HostRuntime) -> Result<(), Fail> {
    let mut text = String::new(rt.alloc());
    long_remark(&mut text)?;
    allocate(&mut text, 0x9000_0000, 0x40u64.wrapping_neg(), 1500, 0x20)?;
    every_second(&mut text)?;
    allocate(&mut text, 0x9000_0010, 0x40u64.wrapping_neg(), 100, 0x20)?;
    has_counts(&rt, rt.alloc(), text.as_str(), 1500 + 2000, (0, 100, 0))
}
