//! Root words without the ranges of memory that lead to no block.

use crate::comparisons::same;
use crate::pool::samples::RBX;
use crate::samples::{Sample, core_of, sample_of};
use leak_index::{Reading, Sorted};
use leak_pool::{leading_roots, mark_alone};
use leak_roots::Roots;
use leak_team::Team;
use std::alloc::AllocGlobal;
use std::test::Fail;
use std::thread::Threads;

/// What is left of the root words, with malloc's links to free chunks or without.
fn leading<R: Threads + Sync + AllocGlobal>(
    rt: &R,
    words: &[(u64, u64)],
    log: &str,
    skip_links: bool,
) -> Result<Roots, Fail> {
    let alloc = rt.alloc();
    let core = core_of(alloc, words)?;
    let Sample { image, live, roots } = sample_of(alloc, core.as_slice(), log)?;
    let lookup = Sorted::new(&live, Reading::interior());
    let roots = roots.skip_links(skip_links);
    let team = Team {
        rt,
        alloc,
        workers: 2,
    };
    Ok(leading_roots(&team, &image, &lookup, roots, &live)?)
}

#[test]
fn ranges_that_lead_to_no_block_are_left_out(rt: HostRuntime) -> Result<(), Fail> {
    let log = "+ 0x10100 0x10\n+ 0x10118 0x8\n";
    let kept = leading(&rt, &[(0x10008, 7)], log, false)?;
    same(&rt, kept.memory(), [].as_slice());
    let words = [(0x10008, 0x10104), (0x10110, 0x21), (0x10120, 0x10118)];
    let kept = leading(&rt, &words, log, false)?;
    let wanted = [(0x10000, 0x10100), (0x10120, 0x11000)];
    same(&rt, kept.memory(), wanted.as_slice());
    let kept = leading(&rt, &[(0x10110, 0x10100)], log, false)?;
    same(&rt, kept.memory(), [(0x10110, 0x10118)].as_slice());
    Ok(())
}

#[test]
fn registers_stay_though_they_lead_nowhere(rt: HostRuntime) -> Result<(), Fail> {
    let log = "+ 0x10100 0x10\n";
    let kept = leading(&rt, &[(RBX, 7)], log, false)?;
    same(&rt, kept.memory(), [].as_slice());
    assert!(rt; kept.registers().contains(&7));
    Ok(())
}

#[test]
fn a_range_that_holds_only_a_link_leads_nowhere_without_links(rt: HostRuntime) -> Result<(), Fail> {
    let words = [(0x100f8, 0x31), (0x10008, 0x10120), (0x10138, 0xfff8)];
    let log = "+ 0x10100 0x20\n";
    let kept = leading(&rt, &words, log, false)?;
    same(&rt, kept.memory(), [(0x10000, 0x10100)].as_slice());
    let kept = leading(&rt, &words, log, true)?;
    same(&rt, kept.memory(), [].as_slice());
    assert!(rt; kept.skips_links());
    Ok(())
}

#[test]
fn the_same_blocks_are_marked(rt: HostRuntime) -> Result<(), Fail> {
    let alloc = rt.alloc();
    let words = [(0x10008, 0x10118), (0x10100, 0x10140), (0x10138, 3)];
    let log = "+ 0x10100 0x10\n+ 0x10118 0x8\n+ 0x10140 0x8\n";
    let core = core_of(alloc, &words)?;
    let Sample { image, live, roots } = sample_of(alloc, core.as_slice(), log)?;
    let lookup = Sorted::new(&live, Reading::interior());
    let before = mark_alone(alloc, &image, &lookup, &roots, &live)?;
    let team = Team {
        rt: &rt,
        alloc,
        workers: 2,
    };
    let kept = leading_roots(&team, &image, &lookup, roots, &live)?;
    let after = mark_alone(alloc, &image, &lookup, &kept, &live)?;
    same(&rt, before.set.as_slice(), [false, true, false].as_slice());
    same(&rt, after.set.as_slice(), [false, true, false].as_slice());
    Ok(())
}
