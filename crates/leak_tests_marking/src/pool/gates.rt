//! What passes a gate, and when.

use crate::comparisons::{same, same_lists};
use crate::pool::samples::{
    Sample, TURNS, by_workers, lead_of_the_second, marked_count, two_apart,
};
use leak_pool::{Gate, Plan};
use std::alloc::AllocGlobal;
use std::process::Abort;
use std::sync::atomic::{AtomicU64, Ordering};
use std::test::Fail;
use std::thread::Threads;

/// Sums up one more than the step of each pass, for each of four workers.
#[derive(Drop)]
struct Passes {
    of: [AtomicU64; 4],
}

impl Passes {
    /// No pass yet.
    fn none() -> Passes {
        Passes {
            of: [
                AtomicU64::new(0),
                AtomicU64::new(0),
                AtomicU64::new(0),
                AtomicU64::new(0),
            ],
        }
    }

    /// Ends the test if the sums are others.
    fn are(&self, rt: &impl Abort, sums: [u64; 4]) {
        for (passes, expected) in self.of.iter().zip(sums) {
            same(rt, passes.load(Ordering::SeqCst), expected);
        }
    }
}

impl Gate for Passes {
    fn pass(&self, worker: u32, step: u64) {
        if let Some(passes) = self.of.get(worker as usize) {
            passes.fetch_add(step.wrapping_add(1), Ordering::SeqCst);
        }
    }
}

#[test]
fn an_item_alone_is_that_of_the_last_worker(rt: HostRuntime) -> Result<(), Fail> {
    let sample = lead_of_the_second(rt.alloc())?;
    let gate = Passes::none();
    let plan = Plan::new(4, 65_536, 0)?;
    let marked = by_workers(&rt, rt.alloc(), &sample, plan, &gate)?;
    // The registers and four ranges of memory are the first round's items: one for each worker, two for the last.
    gate.are(&rt, [1, 1, 1, 1 + 2 + 3]);
    same_lists(&rt, marked.claims.as_slice(), &[&[], &[0, 1], &[], &[2]]);
    same(&rt, marked.rounds, 3);
    Ok(())
}

/// Holds the first pass of one worker until the other worker has passed.
#[derive(Drop)]
struct Holding {
    held: u32,
    others: AtomicU64,
    late: AtomicU64,
}

impl Gate for Holding {
    fn pass(&self, worker: u32, step: u64) {
        if worker != self.held {
            self.others.store(1, Ordering::SeqCst);
            return;
        }
        if step > 0 {
            return;
        }
        for _ in 0..TURNS {
            if self.others.load(Ordering::SeqCst) != 0 {
                return;
            }
        }
        self.late.store(1, Ordering::SeqCst);
    }
}

/// Ends the test unless one worker passes while the other waits at its first pass.
fn passes_beside<R: AllocGlobal + Threads + Sync + Abort>(
    rt: &R,
    sample: &Sample,
    held: u32,
) -> Result<(), Fail> {
    let gate = Holding {
        held,
        others: AtomicU64::new(0),
        late: AtomicU64::new(0),
    };
    let marked = by_workers(rt, rt.alloc(), sample, Plan::new(2, 1, 0)?, &gate)?;
    same(rt, gate.late.load(Ordering::SeqCst), 0);
    same(rt, gate.others.load(Ordering::SeqCst), 1);
    same(rt, marked_count(&marked), 2);
    Ok(())
}

#[test]
fn two_workers_pass_at_the_same_time(rt: HostRuntime) -> Result<(), Fail> {
    let sample = two_apart(rt.alloc())?;
    for held in [0, 1] {
        passes_beside(&rt, &sample, held)?;
    }
    Ok(())
}
