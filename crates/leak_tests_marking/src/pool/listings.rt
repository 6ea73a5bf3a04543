//! Workers that list edges at the same time.

use crate::appointment::Appointment;
use crate::comparisons::same;
use crate::samples::{Sample, core_of, sample_of};
use leak_index::{Reading, Sorted};
use leak_pool::{EdgeRoom, Marked, Open, Plan, list_blocks, mark_by_edges};
use leak_team::Team;
use std::alloc::AllocGlobal;
use std::process::Abort;
use std::test::Fail;
use std::thread::Threads;

/// Two blocks. A root word leads to the first, and its first word to the second.
const LINKED: [(u64, u64); 2] = [(0x10008, 0x10100), (0x10100, 0x10200)];

const LOG: &str = "+ 0x10100 0x20\n+ 0x10200 0x10\n";

// Each of two workers lists the edges of one block, whose first word it gets in a run or alone.

/// Marks by two workers, with room for the edges.
fn marked_by_edges<R: AllocGlobal + Threads + Sync>(
    rt: &R,
    sample: &Sample,
    words: &Appointment,
) -> Result<Marked, Fail> {
    let lookup = Sorted::new(&sample.live, Reading::interior());
    let plan = Plan::new(2, 512, 1024)?;
    let room = EdgeRoom::of_core(&[0u8; 8192]);
    let (roots, live) = (&sample.roots, &sample.live);
    Ok(mark_by_edges(
        rt,
        rt.alloc(),
        words,
        &lookup,
        roots,
        live,
        plan,
        &Open,
        room,
    )?)
}

#[test]
fn two_workers_list_edges_before_marking_at_the_same_time(rt: HostRuntime) -> Result<(), Fail> {
    let alloc = rt.alloc();
    let core = core_of(alloc, &LINKED)?;
    let sample = sample_of(alloc, core.as_slice(), LOG)?;
    for in_runs in [false, true] {
        let words = Appointment::of(&sample.image, in_runs, 0x10100, 0x10200);
        let marked = marked_by_edges(&rt, &sample, &words)?;
        assert!(rt; words.is_kept(), "in runs: {in_runs}");
        same(&rt, marked.set.as_slice(), [true, true].as_slice());
    }
    Ok(())
}

/// Ends the test unless two workers list edges at the same time.
fn are_listed_at_once<R: AllocGlobal + Threads + Sync + Abort>(
    rt: &R,
    sample: &Sample,
    in_runs: bool,
) -> Result<(), Fail> {
    let words = Appointment::of(&sample.image, in_runs, 0x10100, 0x10200);
    let lookup = Sorted::new(&sample.live, Reading::interior());
    let team = Team {
        rt,
        alloc: rt.alloc(),
        workers: 2,
    };
    let lists = list_blocks(&team, &words, &lookup, &sample.live, 1000)?;
    assert!(rt; lists.is_some());
    assert!(rt; words.is_kept(), "in runs: {in_runs}");
    Ok(())
}

#[test]
fn two_workers_list_blocks_at_the_same_time(rt: HostRuntime) -> Result<(), Fail> {
    let alloc = rt.alloc();
    let core = core_of(alloc, &LINKED)?;
    let sample = sample_of(alloc, core.as_slice(), LOG)?;
    for in_runs in [false, true] {
        are_listed_at_once(&rt, &sample, in_runs)?;
    }
    Ok(())
}
