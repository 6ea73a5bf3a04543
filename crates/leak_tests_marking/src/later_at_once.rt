//! Workers that scan blocks of the later core again at the same time.

use crate::appointment::Appointment;
use crate::comparisons::{same, same_lists};
use crate::samples::{Sample, core_of, retraced, sample_of};
use leak_later::Retraced;
use leak_pool::Plan;
use std::alloc::AllocGlobal;
use std::process::Abort;
use std::test::Fail;
use std::thread::Threads;

/// Four blocks that are marked in the earlier core, and two that nothing leads to there.
const EARLIER: &str = "+ 0x10000 0x10\n+ 0x10010 0x10\n+ 0x10020 0x10\n+ 0x10030 0x10\n\
                       + 0x10100 0x10\n+ 0x10200 0x10\n";

/// Those and four new ones.
const LATER: &str = "+ 0x10000 0x10\n+ 0x10010 0x10\n+ 0x10020 0x10\n+ 0x10030 0x10\n\
                     + 0x10100 0x10\n+ 0x10200 0x10\n\
                     + 0x10040 0x10\n+ 0x10050 0x10\n+ 0x10060 0x10\n+ 0x10070 0x10\n";

/// In the later core the first kept block leads to one of the two, and the last new block to the other.
const LEADS: [(u64, u64); 2] = [(0x10000, 0x10100), (0x10070, 0x10200)];

/// Marks again by two workers. The earlier core is all zeros.
fn traced_by_two<R: Threads + Sync + AllocGlobal + Abort>(
    rt: &R,
    words: &Appointment,
    later: &Sample,
) -> Result<Retraced, Fail> {
    let alloc = rt.alloc();
    let zeros = core_of(alloc, &[])?;
    let earlier = sample_of(alloc, zeros.as_slice(), EARLIER)?;
    let marked = [true, true, true, true, false, false];
    // The registers, three ranges of memory and eight blocks: each worker scans six of them, the second all new blocks.
    let plan = Plan::new(2, 65_536, 0)?;
    retraced(rt, words, &earlier, later, &marked, plan)
}

/// Ends the test unless the two blocks are marked, by one worker each, while the other scans.
fn are_scanned_at_once<R: Threads + Sync + AllocGlobal + Abort>(
    rt: &R,
    later: &Sample,
    in_runs: bool,
) -> Result<(), Fail> {
    let words = Appointment::of(&later.image, in_runs, 0x10000, 0x10070);
    let Retraced { marked, reread } = traced_by_two(rt, &words, later)?;
    assert!(rt; words.is_kept(), "in runs: {in_runs}");
    same(rt, marked.set.as_slice(), [true; 10].as_slice());
    same_lists(rt, marked.claims.as_slice(), &[&[8], &[9]]);
    same(rt, reread, 8);
    Ok(())
}

#[test]
fn two_workers_scan_kept_and_new_blocks_at_the_same_time(rt: HostRuntime) -> Result<(), Fail> {
    let alloc = rt.alloc();
    let core = core_of(alloc, &LEADS)?;
    let later = sample_of(alloc, core.as_slice(), LATER)?;
    for in_runs in [false, true] {
        are_scanned_at_once(&rt, &later, in_runs)?;
    }
    Ok(())
}
