//! A core is read on while its last piece is sifted. What is kept, and what is told of a fault, is the same.

use crate::comparisons::{same, same_in};
use crate::passing::Wide;
use leak_find::{ReadFault, Skip};
use leak_passing::{Limits, PassedByTexts, PassingFault, read_passing_by_texts};
use leak_team::Team;
use leak_tests_inputs::fakes::{Source, Steps};
use std::alloc::AllocGlobal;
use std::process::Abort;
use std::test::Fail;
use std::thread::Threads;

/// How many workers keep what one keeps.
const WORKERS: [u32; 4] = [2, 3, 4, 64];

/// How many bytes a core and its log may have: those of these.
fn limits_of(core: &[u8], log: &str) -> Limits {
    Limits {
        core: core.len() as u64,
        log: log.len() as u64,
        core_size: 0,
        log_size: 0,
    }
}

/// Reads the core, so many bytes at a time, and the log, by so many workers.
fn pass<T: AllocGlobal + Threads + Sync>(
    rt: &T,
    workers: u32,
    core: &[u8],
    step: usize,
    log: &str,
) -> Result<PassedByTexts, PassingFault> {
    let team = Team {
        rt,
        alloc: rt.alloc(),
        workers,
    };
    let mut readers = [Steps::of(core, step), Steps::of(log.as_bytes(), usize::MAX)];
    read_passing_by_texts(&team, &mut readers, limits_of(core, log), Skip::usual())
}

/// Ends the test if so many workers, by reads of so many bytes, keep something else of the first bytes of the wide core
/// than one does.
fn is_same<T: Abort + AllocGlobal + Threads + Sync>(
    rt: &T,
    wide: &Wide,
    count: usize,
    workers: u32,
    step: usize,
) -> Result<(), Fail> {
    let (core, log) = (wide.core.as_slice(), wide.log.as_str());
    let core = &core[..count.min(core.len())];
    let one = pass(rt, 1, core, usize::MAX, log)?;
    let found = pass(rt, workers, core, step, log)?;
    let case = (workers, step, count);
    same_in(rt, &case, found.len, one.len);
    same_in(rt, &case, found.words.len(), one.words.len());
    same_in(rt, &case, found.words.kept(), one.words.kept());
    same_in(
        rt,
        &case,
        found.texts.bytes.as_slice(),
        one.texts.bytes.as_slice(),
    );
    for (place, _) in &wide.rows {
        let wanted = one.words.get(*place);
        same_in(rt, &(case, *place), found.words.get(*place), wanted);
    }
    Ok(())
}

#[test]
fn reads_of_any_length_keep_the_same(rt: HostRuntime) -> Result<(), Fail> {
    let wide = Wide::new(rt.alloc())?;
    let count = wide.core.len();
    for workers in WORKERS {
        for step in [131_071, 131_072, 262_147, usize::MAX] {
            is_same(&rt, &wide, count, workers, step)?;
        }
    }
    Ok(())
}

#[test]
fn a_core_that_ends_early_keeps_the_same(rt: HostRuntime) -> Result<(), Fail> {
    let wide = Wide::new(rt.alloc())?;
    for count in [537, 131_608, 524_288, 1_048_577, 2_000_003] {
        for workers in WORKERS {
            is_same(&rt, &wide, count, workers, usize::MAX)?;
            is_same(&rt, &wide, count, workers, 150_001)?;
        }
    }
    Ok(())
}

/// Why the wide core is not read by so many workers, with a byte less than it has as its limit, or by a reader that
/// fails after so many reads.
fn fault_of<T: AllocGlobal + Threads + Sync>(
    rt: &T,
    wide: &Wide,
    workers: u32,
    reads: Option<u64>,
) -> Result<Option<PassingFault>, Fail> {
    let alloc = rt.alloc();
    let (core, log) = (wide.core.as_slice(), wide.log.as_str());
    let slow = Source::slow(alloc, core, 200_000)?;
    let limits = limits_of(core, log);
    let (source, core_limit) = match reads {
        Some(reads) => (slow.failing_after(reads), limits.core),
        None => (slow, limits.core.saturating_sub(1)),
    };
    let mut readers = [source, Source::of(alloc, log.as_bytes())?];
    let team = Team { rt, alloc, workers };
    let limits = Limits {
        core: core_limit,
        ..limits
    };
    let passed = read_passing_by_texts(&team, &mut readers, limits, Skip::usual());
    Ok(passed.err())
}

#[test]
fn a_read_that_fails_is_told(rt: HostRuntime) -> Result<(), Fail> {
    let wide = Wide::new(rt.alloc())?;
    for workers in WORKERS {
        for reads in [0, 1, 2, 5, 12] {
            let fault = fault_of(&rt, &wide, workers, Some(reads))?;
            let case = (workers, reads);
            same_in(
                &rt,
                &case,
                fault,
                Some(PassingFault::Core(ReadFault::Device)),
            );
        }
    }
    Ok(())
}

#[test]
fn a_core_over_its_limit_is_told(rt: HostRuntime) -> Result<(), Fail> {
    let wide = Wide::new(rt.alloc())?;
    for workers in WORKERS {
        let fault = fault_of(&rt, &wide, workers, None)?;
        same(&rt, fault, Some(PassingFault::Core(ReadFault::TooLong)));
    }
    Ok(())
}
