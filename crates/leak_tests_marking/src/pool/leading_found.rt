//! Root words that are found without the ranges of memory that lead to no block.

use crate::comparisons::same;
use crate::pool::samples::RBX;
use crate::samples::{core_of, lives};
use leak_blocks::SmallSpans;
use leak_elf::Image;
use leak_index::{Reading, Sorted};
use leak_notes::Threads;
use leak_pool::find_leading_roots;
use leak_roots::{Exclusions, Roots};
use std::alloc::Global;
use std::test::Fail;

/// The root words of a core with these words, in ranges that lead to a block.
fn found(alloc: Global, words: &[(u64, u64)], log: &str) -> Result<Roots, Fail> {
    let core = core_of(alloc, words)?;
    let image = Image::read(alloc, core.as_slice())?;
    let threads = Threads::read(alloc, &image)?;
    let live = lives(alloc, log)?;
    let small = SmallSpans::none(alloc);
    let excluded = Exclusions {
        small: &small,
        unwritable: true,
    };
    let lookup = Sorted::new(&live, Reading::interior());
    let roots = find_leading_roots(alloc, &image, &threads, &live, &excluded, &lookup)?;
    Ok(roots)
}

#[test]
fn only_ranges_that_lead_to_a_block_are_found(rt: HostRuntime) -> Result<(), Fail> {
    let log = "+ 0x10100 0x10\n+ 0x10118 0x8\n";
    let roots = found(rt.alloc(), &[(0x10008, 7)], log)?;
    same(&rt, roots.memory(), [].as_slice());
    let words = [(0x10008, 0x10104), (0x10110, 0x21), (0x10120, 0x10118)];
    let roots = found(rt.alloc(), &words, log)?;
    let wanted = [(0x10000, 0x10100), (0x10120, 0x11000)];
    same(&rt, roots.memory(), wanted.as_slice());
    Ok(())
}

#[test]
fn registers_are_found_though_they_lead_nowhere(rt: HostRuntime) -> Result<(), Fail> {
    let roots = found(rt.alloc(), &[(RBX, 7)], "+ 0x10100 0x10\n")?;
    same(&rt, roots.memory(), [].as_slice());
    assert!(rt; roots.registers().contains(&7));
    Ok(())
}

#[test]
fn a_range_that_holds_only_a_link_is_found(rt: HostRuntime) -> Result<(), Fail> {
    let words = [(0x100f8, 0x31), (0x10008, 0x10120), (0x10138, 0xfff8)];
    let roots = found(rt.alloc(), &words, "+ 0x10100 0x20\n")?;
    same(&rt, roots.memory(), [(0x10000, 0x10100)].as_slice());
    same(&rt, roots.skips_links(), false);
    Ok(())
}
