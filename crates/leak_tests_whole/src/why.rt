//! Runs that ask what holds a block, over readers and a writer, some of which fail.

use crate::comparisons::same;
use crate::samples::core_of;
use leak_find::{Context, FindError, Options, ReadFault, RunFault, Skip, Task, WriteFault, run};
use leak_index::Reading;
use leak_mtrace::LogError;
use leak_pool::Plan;
use leak_tests_inputs::examples::ONE_BLOCK;
use leak_tests_inputs::fakes::{Sink, Source};
use std::test::Fail;
use std::thread::Threads;

/// How the core and the log are read, with their limits.
fn options(core_limit: u64, log_limit: u64) -> Result<Options, Fail> {
    Ok(Options {
        two: false,
        reading: Reading::interior(),
        skip: Skip::usual(),
        plan: Plan::new(1, 1, 0)?,
        other_heap: false,
        check: false,
        strict: false,
        core_limit,
        log_limit,
    })
}

/// What a run that asks for address 0 answers, and whether it wrote nothing.
fn asked_for_zero<R: AllocGlobal + Threads + Sync>(
    rt: &R,
    core: &[u8],
    log: &str,
    core_limit: u64,
) -> Result<(Result<u8, RunFault>, bool), Fail> {
    let (alloc, task) = (rt.alloc(), Task::Why(options(core_limit, 35)?, 0));
    let mut readers = [core, log.as_bytes()];
    let mut out: Vec<u8> = Vec::new(alloc);
    let mut told: Vec<u8> = Vec::new(alloc);
    let context = Context::silent(rt, alloc);
    let answer = run(&context, &mut readers, &task, &mut out, &mut told);
    Ok((answer, out.is_empty() && told.is_empty()))
}

#[test]
fn inputs_are_refused_before_the_address(rt: HostRuntime) -> Result<(), Fail> {
    let core = core_of(rt.alloc(), &[])?;
    let cases = [
        (8191, "", RunFault::Read(1, ReadFault::TooLong)),
        (8192, ONE_BLOCK, RunFault::Read(2, ReadFault::TooLong)),
        (
            8192,
            "+ 0x10100\n",
            RunFault::Find(FindError::Log(1, LogError::BadLine(1))),
        ),
    ];
    for (core_limit, log, fault) in cases {
        let (answer, silent) = asked_for_zero(&rt, &core, log, core_limit)?;
        same(&rt, answer, Err(fault));
        assert!(rt; silent);
    }
    Ok(())
}

#[test]
fn a_writer_that_fails_has_the_first_bytes(rt: HostRuntime) -> Result<(), Fail> {
    let core = core_of(rt.alloc(), &[])?;
    let mut readers = [
        Source::of(rt.alloc(), core.as_slice())?,
        Source::slow(rt.alloc(), ONE_BLOCK.as_bytes(), 5)?,
    ];
    let mut out = Sink::of(rt.alloc(), 7);
    let mut told: Vec<u8> = Vec::new(rt.alloc());
    let task = Task::Why(options(8192, 36)?, 0x10100);
    let context = Context::silent(&rt, rt.alloc());
    let answer = run(&context, &mut readers, &task, &mut out, &mut told);
    same(&rt, answer, Err(RunFault::Write(WriteFault { written: 7 })));
    same(&rt, out.held.as_slice(), b"asked 0".as_slice());
    assert!(rt; told.is_empty());
    Ok(())
}
