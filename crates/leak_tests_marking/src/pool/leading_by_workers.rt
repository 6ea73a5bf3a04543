//! Root words without the ranges of memory that lead to no block, by workers.

use crate::comparisons::same_in;
use crate::samples::{lives, set};
use leak_blocks::{Live, SmallSpans};
use leak_elf::{Image, core_k};
use leak_index::{Reading, Sorted};
use leak_notes::Threads;
use leak_pool::leading_roots;
use leak_roots::Roots;
use leak_team::Team;
use std::alloc::{AllocGlobal, Global};
use std::fmt::Write;
use std::process::Abort;
use std::test::Fail;
use std::thread;

/// How many ranges have one word, each after a block of one word. They make five shares at most.
const RANGES: u64 = 20_480;

/// Where the first of these blocks starts.
const FIRST: u64 = 0x11000;

/// The log of a block before a free chunk, and of the blocks before the ranges.
fn many_blocks(alloc: Global) -> Result<String, Fail> {
    let mut log = String::new(alloc);
    write!(log, "+ 0x10100 0x20\n")?;
    for i in 0..RANGES {
        let start = FIRST + 16 * i;
        write!(log, "+ {start:#x} 0x8\n")?;
    }
    Ok(log)
}

/// A core in which the ranges of these numbers lead to a block. Before them is one that holds but a link to a free chunk.
fn core_of_leads(alloc: Global, leads: &[u64]) -> Result<Vec<u8>, Fail> {
    let mut core = core_k(alloc, &[])?;
    core.resize(0x52000, 0)?;
    let sizes = [(152usize, 0x51000u64), (160, 0x51000)];
    let link = [(0x10f8usize, 0x31u64), (0x1008, 0x10120), (0x1138, 0xfff8)];
    for (at, value) in sizes {
        set(&mut core, at, &value.to_le_bytes());
    }
    for (at, value) in link {
        set(&mut core, at, &value.to_le_bytes());
    }
    for i in leads {
        let at = i.wrapping_mul(16).wrapping_add(0x2008) as usize;
        set(&mut core, at, &FIRST.to_le_bytes());
    }
    Ok(core)
}

/// The ranges of these numbers, after the one with the link unless links are left out.
fn wanted_of(alloc: Global, leads: &[u64], skip_links: bool) -> Result<Vec<(u64, u64)>, Fail> {
    let mut wanted = Vec::new(alloc);
    if !skip_links {
        wanted.push((0x10000, 0x10100))?;
    }
    for i in leads {
        let start = i.wrapping_mul(16).wrapping_add(FIRST);
        wanted.push((start.wrapping_add(8), start.wrapping_add(16)))?;
    }
    Ok(wanted)
}

/// What a team leaves of the root words of a core.
fn left<R: thread::Threads + Sync>(
    team: &Team<'_, R>,
    image: &Image,
    live: &Live,
    skip_links: bool,
) -> Result<Roots, Fail> {
    let threads = Threads::read(team.alloc, image)?;
    let small = SmallSpans::none(team.alloc);
    let roots = Roots::find(team.alloc, image, &threads, live, &small, true)?;
    let lookup = Sorted::new(live, Reading::interior());
    Ok(leading_roots(team, image, &lookup, roots.skip_links(skip_links), live)?)
}

/// Ends the test if other ranges stay than those of these numbers, however many workers there are.
fn stay<R: thread::Threads + Sync + AllocGlobal + Abort>(
    rt: &R,
    leads: &[u64],
) -> Result<(), Fail> {
    let alloc = rt.alloc();
    let core = core_of_leads(alloc, leads)?;
    let image = Image::read(alloc, core.as_slice())?;
    let log = many_blocks(alloc)?;
    let live = lives(alloc, log.as_str())?;
    for skip_links in [false, true] {
        let wanted = wanted_of(alloc, leads, skip_links)?;
        for workers in [0u32, 1, 2, 3, 4, 64] {
            let team = Team { rt, alloc, workers };
            let kept = left(&team, &image, &live, skip_links)?;
            let case = (skip_links, workers);
            same_in(rt, &case, kept.memory(), wanted.as_slice());
        }
    }
    Ok(())
}

#[test]
fn any_number_of_workers_leaves_the_same_ranges(rt: HostRuntime) -> Result<(), Fail> {
    let leads = [0, 4095, 4096, 6827, 10_239, 10_240, 20_478, 20_479];
    stay(&rt, leads.as_slice())
}

#[test]
fn shares_in_which_no_range_leads_to_a_block_leave_none(rt: HostRuntime) -> Result<(), Fail> {
    stay(&rt, [].as_slice())?;
    stay(&rt, [10_000].as_slice())?;
    stay(&rt, [20_479].as_slice())
}
