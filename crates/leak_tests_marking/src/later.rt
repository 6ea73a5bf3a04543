//! Pages of two cores that differ, and blocks that are live still.

use crate::comparisons::same;
use crate::samples::{differ_at, lives, set};
use leak_elf::core_k;
use leak_later::carry;
use std::alloc::{AllocGlobal, Global};
use std::process::Abort;
use std::test::*;

// The sample core with a second segment of the same bytes at 0x11000.
fn core_of_two_segments(alloc: Global) -> Result<Vec<u8>, Fail> {
    let mut core = core_k(alloc, &[])?;
    set(&mut core, 56, &3u16.to_le_bytes());
    let fields = [
        (176usize, 0x6_0000_0001u64),
        (184, 4096),
        (192, 0x11000),
        (208, 4096),
        (216, 4096),
    ];
    for (at, value) in fields {
        set(&mut core, at, &value.to_le_bytes());
    }
    Ok(core)
}

#[test]
fn a_page_that_only_the_later_core_has_differs(rt: HostRuntime) -> Result<(), Fail> {
    let one = core_k(rt.alloc(), &[])?;
    let two = core_of_two_segments(rt.alloc())?;
    differ_at(&rt, one.as_slice(), two.as_slice(), &[17])?;
    differ_at(&rt, two.as_slice(), one.as_slice(), &[])
}

#[test]
fn a_page_with_a_changed_word_differs(rt: HostRuntime) -> Result<(), Fail> {
    let before = core_k(rt.alloc(), &[])?;
    let now = core_k(rt.alloc(), &[(0x10ff8, 1)])?;
    differ_at(&rt, before.as_slice(), now.as_slice(), &[16])?;
    differ_at(&rt, now.as_slice(), now.as_slice(), &[])
}

// Ends the test unless these are kept and fresh, of so many blocks of the later log.
fn carries<R: AllocGlobal + Abort>(
    rt: &R,
    logs: [&str; 2],
    count: u32,
    marked: &[bool],
    kept: &[u32],
    fresh: &[u32],
) -> Result<(), Fail> {
    let earlier = lives(rt.alloc(), logs[0])?;
    let later = lives(rt.alloc(), logs[1])?;
    if earlier.blocks().len() != marked.len() || later.blocks().len() != count as usize {
        panic!(rt; "other counts of blocks");
    }
    let carried = carry(rt.alloc(), &earlier, marked, &later)?;
    same(rt, carried.kept.as_slice(), kept);
    same(rt, carried.fresh.as_slice(), fresh);
    Ok(())
}

#[test]
fn a_block_that_was_moved_is_fresh(rt: HostRuntime) -> Result<(), Fail> {
    let logs = [
        "+ 0x10100 0x20\n+ 0x10200 0x10\n",
        "+ 0x10100 0x20\n+ 0x10200 0x10\n< 0x10100\n> 0x10100 0x20\n",
    ];
    carries(&rt, logs, 2, &[false, false], &[], &[0])
}

#[test]
fn marked_blocks_that_are_live_still_are_kept(rt: HostRuntime) -> Result<(), Fail> {
    let logs = [
        "+ 0x10100 0x20\n+ 0x10120 0x10\n+ 0x10200 0x10\n",
        "+ 0x10100 0x20\n+ 0x10120 0x10\n+ 0x10200 0x10\n- 0x10120\n",
    ];
    carries(&rt, logs, 2, &[true, true, true], &[0, 1], &[])
}
