//! Marking from a start, and of nothing.
ghost use Rattle.std.specs.Prelude.{◌<◌, length};

use crate::comparisons::same;
use crate::pool::samples::{Sample, alone, by_workers, claim_count};
use crate::samples::{self, sample_of};
use leak_blocks::Live;
use leak_elf::{Image, core_k};
use leak_index::{Reading, Sorted};
use leak_pool::{Marked, Open, Part, Plan, Start, mark_from};
use leak_roots::Roots;
use leak_scan::Pages;
use std::alloc::{AllocGlobal, Global};
use std::process::Abort;
use std::test::Fail;
use std::thread::Threads;

/// Ends the test unless nothing is marked, in no round, by so many workers.
fn has_nothing(rt: &impl Abort, marked: &Marked, workers: usize) {
    same(rt, marked.set.len(), 0);
    same(rt, marked.claims.len(), workers);
    same(rt, claim_count(marked), 0);
    same(rt, marked.rounds, 0);
}

#[test]
fn no_block_takes_no_round(rt: HostRuntime) -> Result<(), Fail> {
    let alloc = rt.alloc();
    let empty = Sample {
        words: Vec::new(alloc),
        log: String::new(alloc),
    };
    let marked = alone(alloc, &empty)?;
    has_nothing(&rt, &marked, 1);
    for workers in [1, 2, 3, 64] {
        let plan = Plan::new(workers, 512, 1024)?;
        let marked = by_workers(&rt, alloc, &empty, plan, &Open)?;
        has_nothing(&rt, &marked, workers as usize);
    }
    Ok(())
}

/// Marks from the first block, of which a part is scanned again.
fn from_first<R: Threads + Sync>(
    rt: &R,
    alloc: Global,
    image: &Image,
    roots: &Roots,
    live: &Live,
    part: Part,
    pages: &Pages,
) -> Result<Marked, Fail>
    requires { 0 < length live.now.blocks }
{
    let lookup = Sorted::new(live, Reading::interior());
    let marked = vec![in alloc; 0u32]?;
    let rescan = vec![in alloc; (0u32, part)]?;
    let start = Start { marked, rescan };
    let plan = Plan::new(2, 512, 0)?;
    Ok(mark_from(
        rt, alloc, image, &lookup, roots, live, plan, &Open, &start, pages,
    )?)
}

/// Ends the test unless so many blocks are claimed behind the first, if that part of it is scanned again.
fn claims_from_first<R: AllocGlobal + Threads + Sync + Abort>(
    rt: &R,
    sample: &samples::Sample,
    part: Part,
    page: u64,
    claims: usize,
) -> Result<(), Fail> {
    let Some(pages) = Pages::new(vec![in rt.alloc(); page]?) else {
        panic!(rt; "one page is pages")
    };
    let (image, roots, live) = (&sample.image, &sample.roots, &sample.live);
    assert!(rt; !live.blocks().is_empty());
    let marked = from_first(rt, rt.alloc(), image, roots, live, part, &pages)?;
    same(rt, marked.set.as_slice(), [true, claims == 1].as_slice());
    same(rt, claim_count(&marked), claims);
    Ok(())
}

#[test]
fn a_start_is_scanned_again_in_parts(rt: HostRuntime) -> Result<(), Fail> {
    let alloc = rt.alloc();
    let core = core_k(alloc, &[(0x10100, 0x10200)])?;
    let sample = sample_of(alloc, core.as_slice(), "+ 0x10100 0x20\n+ 0x10200 0x10\n")?;
    let cases = [
        (Part::Whole, 17u64, 1usize),
        (Part::Differing, 16, 1),
        (Part::Differing, 17, 0),
    ];
    for (part, page, claims) in cases {
        claims_from_first(&rt, &sample, part, page, claims)?;
    }
    Ok(())
}
