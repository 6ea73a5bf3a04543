//! Schedules that a gate forces on the workers.

use crate::claims::hold_each_once;
use crate::comparisons::same_in;
use crate::hundreds::{CHAIN, chain};
use crate::samples::core_of;
use crate::searches::reports;
use crate::two_cores::with_lines;
use leak_find::{Rules, Workers, find_one, find_two};
use leak_pool::{Gate, Plan};
use std::sync::atomic::{AtomicU64, Ordering};
use std::test::Fail;

/// How often a held worker looks for the other, at most.
const TURNS: u64 = 1_000_000_000;

/// Holds the first pass of one worker until the other has passed.
#[derive(Drop)]
struct Holding {
    held: u32,
    /// 1 once the other worker has passed.
    passed: AtomicU64,
    /// 1 if the held worker has waited in vain.
    late: AtomicU64,
}

impl Gate for Holding {
    fn pass(&self, worker: u32, step: u64) {
        if worker != self.held {
            self.passed.store(1, Ordering::SeqCst);
        } else if step == 0 {
            self.wait();
        }
    }
}

impl Holding {
    /// A gate that holds the worker.
    fn of(held: u32) -> Holding {
        Holding {
            held,
            passed: AtomicU64::new(0),
            late: AtomicU64::new(0),
        }
    }

    fn wait(&self) {
        for _ in 0..TURNS {
            if self.passed.load(Ordering::SeqCst) == 1 {
                return;
            }
        }
        self.late.store(1, Ordering::SeqCst);
    }
}

#[test]
fn either_of_two_workers_may_begin(rt: HostRuntime) -> Result<(), Fail> {
    let sample = chain(rt.alloc())?;
    let core = sample.core.as_slice();
    let log = sample.log.as_bytes();
    for held in [0, 1] {
        let gate = Holding::of(held);
        let plan = Plan::new(2, 1, 0)?;
        let workers = Workers {
            rt: &rt,
            plan,
            gate: &gate,
        };
        let found = find_one(&workers, rt.alloc(), core, log, Rules::usual(), false)?;
        same_in(&rt, &held, gate.passed.load(Ordering::SeqCst), 1);
        same_in(&rt, &held, gate.late.load(Ordering::SeqCst), 0);
        reports(&rt, &held, &found, CHAIN);
        assert!(rt; hold_each_once(rt.alloc(), found.claims.as_slice(), 100)?);
    }
    Ok(())
}

#[test]
fn either_of_two_workers_may_begin_in_two_cores(rt: HostRuntime) -> Result<(), Fail> {
    let alloc = rt.alloc();
    let sample = chain(alloc)?;
    let zeros = core_of(alloc, &[])?;
    let core1 = zeros.as_slice();
    let core2 = sample.core.as_slice();
    let log = sample.log.as_bytes();
    let wanted = with_lines(alloc, CHAIN, "new 0 bytes 0\nreread 0\n")?;
    for held in [0, 1] {
        let gate = Holding::of(held);
        let plan = Plan::new(2, 1, 0)?;
        let workers = Workers {
            rt: &rt,
            plan,
            gate: &gate,
        };
        let found = find_two(
            &workers,
            alloc,
            core1,
            log,
            core2,
            log,
            Rules::usual(),
            false,
        )?;
        same_in(&rt, &held, gate.passed.load(Ordering::SeqCst), 1);
        same_in(&rt, &held, gate.late.load(Ordering::SeqCst), 0);
        reports(&rt, &held, &found, wanted.as_str());
        assert!(rt; hold_each_once(alloc, found.claims.as_slice(), 100)?);
    }
    Ok(())
}

/// Holds the first pass of each of two workers in the second marking until the other's, and none in the first marking.
#[derive(Drop)]
struct Later {
    /// How many markings each worker has begun.
    begun: [AtomicU64; 2],
    /// 1 where a worker has waited in vain.
    late: AtomicU64,
}

impl Later {
    /// Whether the worker has begun the second marking before the turns end.
    fn has_come(&self, worker: usize) -> bool {
        let Some(begun) = self.begun.get(worker) else {
            return false;
        };
        for _ in 0..TURNS {
            if begun.load(Ordering::SeqCst) == 2 {
                return true;
            }
        }
        false
    }
}

impl Gate for Later {
    fn pass(&self, worker: u32, step: u64) {
        let worker = worker as usize;
        let Some(begun) = self.begun.get(worker) else {
            return;
        };
        if step > 0 || begun.fetch_add(1, Ordering::SeqCst) == 0 {
            return;
        }
        if !self.has_come(1usize.wrapping_sub(worker)) {
            self.late.store(1, Ordering::SeqCst);
        }
    }
}

#[test]
fn two_workers_mark_the_later_core_at_the_same_time(rt: HostRuntime) -> Result<(), Fail> {
    let alloc = rt.alloc();
    let sample = chain(alloc)?;
    let zeros = core_of(alloc, &[])?;
    let log = sample.log.as_bytes();
    let wanted = with_lines(alloc, CHAIN, "new 0 bytes 0\nreread 0\n")?;
    let gate = Later {
        begun: [AtomicU64::new(0), AtomicU64::new(0)],
        late: AtomicU64::new(0),
    };
    let workers = Workers {
        rt: &rt,
        plan: Plan::new(2, 1, 0)?,
        gate: &gate,
    };
    let found = find_two(
        &workers,
        alloc,
        zeros.as_slice(),
        log,
        sample.core.as_slice(),
        log,
        Rules::usual(),
        false,
    )?;
    same_in(&rt, &"late", gate.late.load(Ordering::SeqCst), 0);
    for begun in gate.begun.iter() {
        same_in(&rt, &"begun", begun.load(Ordering::SeqCst), 2);
    }
    reports(&rt, &"chain", &found, wanted.as_str());
    Ok(())
}
