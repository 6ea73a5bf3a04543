//! Roots with malloc's links to free chunks, and without them.

use crate::pool::samples::{RBX, no_start};
use crate::samples::{Sample, core_of, sample_of};
use leak_blocks::Live;
use leak_elf::Image;
use leak_index::{Reading, Sorted};
use leak_pool::{
    EdgeRoom, Marked, Open, Plan, PoolError, mark, mark_alone, mark_by_edges, mark_from,
};
use leak_roots::Roots;
use leak_scan::Pages;
use std::alloc::Global;
use std::test::Fail;
use std::thread::Threads;

/// Whether each way to mark marks just these blocks, of the words with links to free chunks or without them.
fn all_mark<R: Threads + Sync>(
    rt: &R,
    alloc: Global,
    words: &[(u64, u64)],
    log: &str,
    skip_links: bool,
    set: &[bool],
) -> Result<bool, Fail> {
    let core = core_of(alloc, words)?;
    let Sample { image, live, roots } = sample_of(alloc, core.as_slice(), log)?;
    let roots = roots.skip_links(skip_links);
    let alone = marks_alone(alloc, &image, &roots, &live, set)?;
    let by_workers = workers_mark(rt, alloc, &image, &roots, &live, set)?;
    Ok(alone && by_workers)
}

/// Whether the caller's thread marks just these blocks.
fn marks_alone(
    alloc: Global,
    image: &Image,
    roots: &Roots,
    live: &Live,
    set: &[bool],
) -> Result<bool, Fail> {
    let lookup = Sorted::new(live, Reading::interior());
    let marked = mark_alone(alloc, image, &lookup, roots, live)?;
    Ok(marked.set.as_slice() == set)
}

/// Whether two workers do, over the words, over links and from nothing.
fn workers_mark<R: Threads + Sync>(
    rt: &R,
    alloc: Global,
    image: &Image,
    roots: &Roots,
    live: &Live,
    set: &[bool],
) -> Result<bool, Fail> {
    let plan = Plan::new(2, 512, 1024)?;
    let over_words = by_words(rt, alloc, image, roots, live, plan)?;
    let over_edges = by_edges(rt, alloc, image, roots, live, plan)?;
    let from_nothing = from_nothing(rt, alloc, image, roots, live, plan)?;
    let is_set = over_words.set.as_slice() == set && over_edges.set.as_slice() == set;
    Ok(is_set && from_nothing.set.as_slice() == set)
}

fn by_words<R: Threads + Sync>(
    rt: &R,
    alloc: Global,
    image: &Image,
    roots: &Roots,
    live: &Live,
    plan: Plan,
) -> Result<Marked, Fail> {
    let lookup = Sorted::new(live, Reading::interior());
    Ok(mark(rt, alloc, image, &lookup, roots, live, plan, &Open)?)
}

fn by_edges<R: Threads + Sync>(
    rt: &R,
    alloc: Global,
    image: &Image,
    roots: &Roots,
    live: &Live,
    plan: Plan,
) -> Result<Marked, Fail> {
    let lookup = Sorted::new(live, Reading::interior());
    let room = EdgeRoom::of_core(&[0u8; 32_000]);
    Ok(mark_by_edges(rt, alloc, image, &lookup, roots, live, plan, &Open, room)?)
}

fn from_nothing<R: Threads + Sync>(
    rt: &R,
    alloc: Global,
    image: &Image,
    roots: &Roots,
    live: &Live,
    plan: Plan,
) -> Result<Marked, Fail> {
    let lookup = Sorted::new(live, Reading::interior());
    let start = no_start(alloc);
    let Some(pages) = Pages::new(Vec::new(alloc)) else {
        return Err(Fail::from(PoolError::NoMemory));
    };
    Ok(mark_from(
        rt, alloc, image, &lookup, roots, live, plan, &Open, &start, &pages,
    )?)
}

#[test]
fn a_word_of_a_list_marks_nothing(rt: HostRuntime) -> Result<(), Fail> {
    let alloc = rt.alloc();
    let words = [(0x100f8, 0x31), (0x10008, 0x10120), (0x10138, 0xfff8)];
    let log = "+ 0x10100 0x20\n";
    assert!(rt; all_mark(&rt, alloc, &words, log, false, &[true])?);
    assert!(rt; all_mark(&rt, alloc, &words, log, true, &[false])?);
    // the block that begins there is marked
    let log = "+ 0x10100 0x20\n+ 0x10120 0x8\n";
    assert!(rt; all_mark(&rt, alloc, &words, log, false, &[true, true])?);
    assert!(rt; all_mark(&rt, alloc, &words, log, true, &[false, true])?);
    Ok(())
}

#[test]
fn a_register_is_no_link(rt: HostRuntime) -> Result<(), Fail> {
    let alloc = rt.alloc();
    let words = [
        (0x100f8, 0x21),
        (0x10008, 0x10110),
        (0x10128, 0xfff8),
        (RBX, 0x10110),
    ];
    let log = "+ 0x10100 0x18\n";
    assert!(rt; all_mark(&rt, alloc, &words[..3], log, false, &[true])?);
    assert!(rt; all_mark(&rt, alloc, &words[..3], log, true, &[false])?);
    assert!(rt; all_mark(&rt, alloc, &words, log, true, &[true])?);
    Ok(())
}

#[test]
fn a_word_of_a_block_is_no_link(rt: HostRuntime) -> Result<(), Fail> {
    let alloc = rt.alloc();
    let words = [
        (0x100f8, 0x31),
        (0x10008, 0x10200),
        (0x10200, 0x10120),
        (0x10138, 0x101f0),
    ];
    let log = "+ 0x10100 0x20\n+ 0x10200 0x10\n";
    assert!(rt; all_mark(&rt, alloc, &words, log, false, &[true, true])?);
    assert!(rt; all_mark(&rt, alloc, &words, log, true, &[true, true])?);
    Ok(())
}
