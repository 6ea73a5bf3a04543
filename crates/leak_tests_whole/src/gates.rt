//! Gates that many workers pass, and how often.

use crate::comparisons::{same, same_in};
use crate::hundreds::star;
use crate::marking::{LONG_ROOTS, by_plan, long_chain, marked_count};
use leak_pool::{Gate, Plan};
use std::sync::atomic::{AtomicU64, Ordering};
use std::test::Fail;

/// How often a worker looks for another, at most.
const TURNS: u64 = 1_000_000_000;

/// Counts the passes of eight workers, and sums up the numbers of their steps.
#[derive(Drop)]
struct Counting {
    passes: [AtomicU64; 8],
    steps: [AtomicU64; 8],
}

impl Gate for Counting {
    fn pass(&self, worker: u32, step: u64) {
        if let Some(passes) = self.passes.get(worker as usize) {
            passes.fetch_add(1, Ordering::SeqCst);
        }
        if let Some(steps) = self.steps.get(worker as usize) {
            steps.fetch_add(step, Ordering::SeqCst);
        }
    }
}

/// Eight zeros.
fn zeros() -> [AtomicU64; 8] {
    [
        AtomicU64::new(0),
        AtomicU64::new(0),
        AtomicU64::new(0),
        AtomicU64::new(0),
        AtomicU64::new(0),
        AtomicU64::new(0),
        AtomicU64::new(0),
        AtomicU64::new(0),
    ]
}

#[test]
fn each_of_eight_workers_passes_once_for_each_item(rt: HostRuntime) -> Result<(), Fail> {
    let sample = long_chain(rt.alloc())?;
    for stack in [0, 1] {
        let gate = Counting {
            passes: zeros(),
            steps: zeros(),
        };
        // One word is one piece. The blocks pass no gate: the caller scans those that wait, alone in their rounds.
        let plan = Plan::new(8, 1, stack)?;
        let marked = by_plan(&rt, rt.alloc(), &sample, plan, &gate)?;
        same(&rt, marked_count(&marked), 1200);
        let counts = gate.passes.iter().zip(gate.steps.iter());
        for (k, (passes, steps)) in counts.enumerate() {
            let k = k as u64;
            let items = (k + 1) * LONG_ROOTS / 8 - k * LONG_ROOTS / 8;
            same_in(&rt, &(k, stack), passes.load(Ordering::SeqCst), items);
            let sum = items * (items - 1) / 2;
            same_in(&rt, &(k, stack), steps.load(Ordering::SeqCst), sum);
        }
    }
    Ok(())
}

/// Each of four workers waits at its first pass for the next one, or for the one before.
#[derive(Drop)]
struct Waiting {
    /// Whether a worker waits for the one with the next number.
    up: bool,
    come: [AtomicU64; 4],
    /// 1 if a worker has waited in vain.
    late: AtomicU64,
}

impl Waiting {
    /// Returns when the worker has come, or after [`TURNS`] looks.
    fn wait_for(&self, worker: usize) {
        let Some(come) = self.come.get(worker) else {
            return;
        };
        for _ in 0..TURNS {
            if come.load(Ordering::SeqCst) == 1 {
                return;
            }
        }
        self.late.store(1, Ordering::SeqCst);
    }
}

impl Gate for Waiting {
    fn pass(&self, worker: u32, step: u64) {
        if step > 0 {
            return;
        }
        let worker = worker as usize;
        if let Some(come) = self.come.get(worker) {
            come.store(1, Ordering::SeqCst);
        }
        if self.up {
            self.wait_for(worker.wrapping_add(1));
        } else {
            self.wait_for(worker.wrapping_sub(1));
        }
    }
}

#[test]
fn four_workers_pass_at_the_same_time(rt: HostRuntime) -> Result<(), Fail> {
    let sample = star(rt.alloc())?;
    for up in [true, false] {
        for stack in [0, 65_536] {
            let gate = Waiting {
                up,
                come: [
                    AtomicU64::new(0),
                    AtomicU64::new(0),
                    AtomicU64::new(0),
                    AtomicU64::new(0),
                ],
                late: AtomicU64::new(0),
            };
            let plan = Plan::new(4, 1, stack)?;
            let marked = by_plan(&rt, rt.alloc(), &sample, plan, &gate)?;
            same(&rt, gate.late.load(Ordering::SeqCst), 0);
            for come in gate.come.iter() {
                same(&rt, come.load(Ordering::SeqCst), 1);
            }
            same(&rt, marked_count(&marked), 101);
        }
    }
    Ok(())
}
