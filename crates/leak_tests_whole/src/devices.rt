//! Whole runs over readers and a writer, some of which fail.

ghost use Rattle.std.specs.Prelude.{IfOk, IsFalse};

use crate::comparisons::{same, same_in};
use crate::samples::{Part, core_of};
use crate::searches::run_over;
use leak_elf::ElfError;
use leak_find::{Context, FindError, Options, ReadFault, RunFault, Skip, Task, run};
use leak_index::Reading;
use leak_pool::Plan;
use leak_streams::WriteFault;
use leak_tests_inputs::examples::{HELD, LOST, ONE_BLOCK};
use leak_tests_inputs::fakes::{Giver, Sink, Source, Taker, Turn};
use std::test::Fail;

/// How the runs search, with the limits of core and log.
fn options(core_limit: u64, log_limit: u64) -> Result<Options, Fail>
    ensures { IfOk result (λ options. IsFalse options.two) }
{
    Ok(Options {
        two: false,
        reading: Reading::interior(),
        skip: Skip::usual(),
        plan: Plan::new(2, 512, 1024)?,
        other_heap: true,
        check: false,
        strict: false,
        core_limit,
        log_limit,
    })
}

#[test]
fn readers_that_give_a_byte_at_a_time_change_nothing(rt: HostRuntime) -> Result<(), Fail> {
    let core = core_of(rt.alloc(), &[Part::Word(0x10008, 0x10100)])?;
    let mut readers = [
        Source::slow(rt.alloc(), core.as_slice(), 1)?,
        Source::slow(rt.alloc(), ONE_BLOCK.as_bytes(), 1)?,
    ];
    let options = options(8192, 36)?;
    let ran = run_over(&rt, rt.alloc(), &mut readers, &options);
    same(&rt, ran.out.as_slice(), HELD.as_bytes());
    same(&rt, ran.answer, Ok(0));
    Ok(())
}

#[test]
fn a_reader_over_its_limit_is_refused(rt: HostRuntime) -> Result<(), Fail> {
    let core = core_of(rt.alloc(), &[])?;
    let cases = [(8191, 36, 1), (8192, 35, 2), (8191, 35, 1)];
    for (core_limit, log_limit, reader) in cases {
        let mut readers = [core.as_slice(), ONE_BLOCK.as_bytes()];
        let options = options(core_limit, log_limit)?;
        let ran = run_over(&rt, rt.alloc(), &mut readers, &options);
        same(
            &rt,
            ran.answer,
            Err(RunFault::Read(reader, ReadFault::TooLong)),
        );
        assert!(rt; ran.is_silent(), "reader {reader}");
    }
    Ok(())
}

#[test]
fn a_reader_that_fails_leaves_nothing_written(rt: HostRuntime) -> Result<(), Fail> {
    let core = core_of(rt.alloc(), &[])?;
    // The log fails, and a core over its limit is met before it.
    let cases = [
        (8192, RunFault::Read(2, ReadFault::Device)),
        (8191, RunFault::Read(1, ReadFault::TooLong)),
    ];
    for (core_limit, wanted) in cases {
        let mut readers = [
            Source::of(rt.alloc(), core.as_slice())?,
            Source::of(rt.alloc(), ONE_BLOCK.as_bytes())?.failing_after(1),
        ];
        let options = options(core_limit, 36)?;
        let ran = run_over(&rt, rt.alloc(), &mut readers, &options);
        same(&rt, ran.answer, Err(wanted));
        assert!(rt; ran.is_silent(), "limit {core_limit}");
    }
    Ok(())
}

#[test]
fn a_core_that_is_refused_leaves_nothing_written(rt: HostRuntime) -> Result<(), Fail> {
    let mut core = core_of(rt.alloc(), &[])?;
    core.truncate(8191);
    let mut readers = [
        Source::of(rt.alloc(), core.as_slice())?,
        Source::of(rt.alloc(), ONE_BLOCK.as_bytes())?,
    ];
    let options = options(8192, 36)?;
    let ran = run_over(&rt, rt.alloc(), &mut readers, &options);
    let refusal = FindError::Core(1, ElfError::Truncated(1));
    same(&rt, ran.answer, Err(RunFault::Find(refusal)));
    assert!(rt; ran.is_silent());
    // The log was read before the search was made.
    same(&rt, readers[1].left(), 0);
    Ok(())
}

#[test]
fn a_writer_that_fails_holds_what_the_fault_tells(rt: HostRuntime) -> Result<(), Fail> {
    let core = core_of(rt.alloc(), &[])?;
    let task = Task::Search(options(8192, 36)?);
    let mut wanted = Vec::from_slice(rt.alloc(), LOST.as_bytes())?;
    for room in (0..LOST.len()).rev() {
        wanted.truncate(room);
        let mut readers = [core.as_slice(), ONE_BLOCK.as_bytes()];
        let mut out = Sink::of(rt.alloc(), room);
        let mut warned: Vec<u8> = Vec::new(rt.alloc());
        let result = run(
            &Context::silent(&rt, rt.alloc()),
            &mut readers,
            &task,
            &mut out,
            &mut warned,
        );
        let fault = WriteFault {
            written: room as u64,
        };
        same(&rt, result, Err(RunFault::Write(fault)));
        same_in(&rt, &room, out.held.as_slice(), wanted.as_slice());
    }
    Ok(())
}

#[test]
fn a_log_that_fails_at_any_read_leaves_nothing_written(rt: HostRuntime) -> Result<(), Fail> {
    let core = core_of(rt.alloc(), &[])?;
    let options = options(8192, 36)?;
    // Three reads give the 36 bytes, and the fourth finds the end.
    for reads in 0..4 {
        let mut readers = [
            Source::of(rt.alloc(), core.as_slice())?,
            Source::slow(rt.alloc(), ONE_BLOCK.as_bytes(), 12)?.failing_after(reads),
        ];
        let ran = run_over(&rt, rt.alloc(), &mut readers, &options);
        same_in(
            &rt,
            &reads,
            ran.answer,
            Err(RunFault::Read(2, ReadFault::Device)),
        );
        assert!(rt; ran.is_silent(), "{reads}");
    }
    Ok(())
}

#[test]
fn a_core_that_is_always_interrupted_leaves_the_log_unread(rt: HostRuntime) -> Result<(), Fail> {
    let core = core_of(rt.alloc(), &[])?;
    let turns = [Turn::Bytes(100), Turn::Interrupted(u64::MAX)];
    let mut readers = [
        Giver::of(rt.alloc(), core.as_slice(), &turns)?,
        Giver::of(rt.alloc(), ONE_BLOCK.as_bytes(), &[])?,
    ];
    let options = options(8192, 36)?;
    let ran = run_over(&rt, rt.alloc(), &mut readers, &options);
    same(
        &rt,
        ran.answer,
        Err(RunFault::Read(1, ReadFault::TooManyTurns)),
    );
    assert!(rt; ran.is_silent());
    same(&rt, readers.each_ref().map(|r| r.left()), [8092, 36]);
    same(&rt, readers.each_ref().map(|r| r.reads), [1_000_001, 0]);
    Ok(())
}

#[test]
fn a_writer_that_takes_nothing_holds_nothing(rt: HostRuntime) -> Result<(), Fail> {
    let core = core_of(rt.alloc(), &[])?;
    let task = Task::Search(options(8192, 36)?);
    for turn in [Turn::Bytes(0), Turn::Interrupted(u64::MAX), Turn::Fails] {
        let mut readers = [core.as_slice(), ONE_BLOCK.as_bytes()];
        let mut out = Taker::of(rt.alloc(), &[turn])?;
        let mut warned: Vec<u8> = Vec::new(rt.alloc());
        let result = run(
            &Context::silent(&rt, rt.alloc()),
            &mut readers,
            &task,
            &mut out,
            &mut warned,
        );
        same(&rt, result, Err(RunFault::Write(WriteFault { written: 0 })));
        assert!(rt; out.held.is_empty());
    }
    Ok(())
}
