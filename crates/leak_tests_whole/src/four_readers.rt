//! Whole runs over the readers of two cores and their logs.

ghost use Rattle.std.specs.Prelude.{IfOk, IsTrue};

use crate::comparisons::{same, same_in};
use crate::samples::{Part, core_of};
use crate::searches::run_over;
use leak_elf::ElfError;
use leak_find::{Context, FindError, Options, ReadFault, RunFault, Skip, Task, run};
use leak_index::Reading;
use leak_pool::Plan;
use leak_streams::WriteFault;
use leak_tests_inputs::examples::ONE_BLOCK;
use leak_tests_inputs::fakes::{Sink, Source};
use std::alloc::Global;
use std::test::Fail;

/// How the runs search, with the limits of cores and logs.
fn options(core_limit: u64, log_limit: u64) -> Result<Options, Fail>
    ensures { IfOk result (λ options. IsTrue options.two) }
{
    Ok(Options {
        two: true,
        reading: Reading::interior(),
        skip: Skip::usual(),
        plan: Plan::new(2, 512, 1024)?,
        other_heap: true,
        check: false,
        strict: false,
        core_limit,
        log_limit,
    })
}

/// The report if the one block is marked, and is not read again.
const HELD_UNREAD: &str = "blocks 1 bytes 32\n\
                           undumped 0\n\
                           unknown 0 displaced 0 torn 0\n\
                           new 0 bytes 0\n\
                           reread 0\n\
                           marked 1 bytes 32\n\
                           leaked 0 bytes 0\n\
                           heads 0\n";

/// Readers of core 1, log 1, core 2 and log 2.
fn sources(
    alloc: Global,
    core1: &[u8],
    log1: &[u8],
    core2: &[u8],
    log2: &[u8],
) -> Result<[Source; 4], Fail> {
    Ok([
        Source::of(alloc, core1)?,
        Source::of(alloc, log1)?,
        Source::of(alloc, core2)?,
        Source::of(alloc, log2)?,
    ])
}

#[test]
fn a_reader_over_its_limit_is_refused(rt: HostRuntime) -> Result<(), Fail> {
    // A core of 8192 bytes and a log of 36 are within the limits.
    let options = options(8192, 36)?;
    let core = core_of(rt.alloc(), &[])?;
    let mut long_core = core_of(rt.alloc(), &[])?;
    long_core.extend_from_slice(b"more")?;
    let mut long_log = Vec::from_slice(rt.alloc(), ONE_BLOCK.as_bytes())?;
    long_log.extend_from_slice(b"more")?;
    let good = [core.as_slice(), ONE_BLOCK.as_bytes()];
    let long = [long_core.as_slice(), long_log.as_slice()];
    let cases = [
        (1, [long[0], long[1], long[0], long[1]], [3, 40, 8196, 40]),
        (2, [good[0], long[1], long[0], long[1]], [0, 3, 8196, 40]),
        (3, [good[0], good[1], long[0], long[1]], [0, 0, 3, 40]),
        (4, [good[0], good[1], good[0], long[1]], [0, 0, 0, 3]),
    ];
    for (reader, [core1, log1, core2, log2], left) in cases {
        let mut readers = sources(rt.alloc(), core1, log1, core2, log2)?;
        let ran = run_over(&rt, rt.alloc(), &mut readers, &options);
        same(
            &rt,
            ran.answer,
            Err(RunFault::Read(reader, ReadFault::TooLong)),
        );
        assert!(rt; ran.is_silent(), "reader {reader}");
        // One byte more than the limit was taken, and nothing of the later readers.
        same_in(&rt, &reader, readers.each_ref().map(|r| r.left()), left);
    }
    Ok(())
}

#[test]
fn a_reader_that_fails_leaves_the_later_ones_unread(rt: HostRuntime) -> Result<(), Fail> {
    let options = options(8192, 36)?;
    let core = core_of(rt.alloc(), &[])?;
    let core = core.as_slice();
    let log = ONE_BLOCK.as_bytes();
    let cases = [
        (1, [8192, 36, 8192, 36]),
        (2, [0, 36, 8192, 36]),
        (3, [0, 0, 8192, 36]),
        (4, [0, 0, 0, 36]),
    ];
    for (failing, left) in cases {
        let mut readers = sources(rt.alloc(), core, log, core, log)?;
        if let Some(reader) = readers.get_mut(usize::from(failing).saturating_sub(1)) {
            reader.fail();
        }
        let ran = run_over(&rt, rt.alloc(), &mut readers, &options);
        same(
            &rt,
            ran.answer,
            Err(RunFault::Read(failing, ReadFault::Device)),
        );
        assert!(rt; ran.is_silent(), "reader {failing}");
        same_in(&rt, &failing, readers.each_ref().map(|r| r.left()), left);
    }
    Ok(())
}

#[test]
fn readers_that_give_a_byte_at_a_time_change_nothing(rt: HostRuntime) -> Result<(), Fail> {
    let core1 = core_of(rt.alloc(), &[])?;
    let core2 = core_of(rt.alloc(), &[Part::Word(0x10008, 0x10100)])?;
    let mut readers = [
        Source::slow(rt.alloc(), core1.as_slice(), 1)?,
        Source::slow(rt.alloc(), ONE_BLOCK.as_bytes(), 1)?,
        Source::slow(rt.alloc(), core2.as_slice(), 1)?,
        Source::slow(rt.alloc(), ONE_BLOCK.as_bytes(), 1)?,
    ];
    let options = options(8192, 36)?;
    let ran = run_over(&rt, rt.alloc(), &mut readers, &options);
    same(&rt, ran.out.as_slice(), HELD_UNREAD.as_bytes());
    same(&rt, ran.answer, Ok(0));
    Ok(())
}

#[test]
fn inputs_that_are_refused_leave_nothing_written(rt: HostRuntime) -> Result<(), Fail> {
    let options = options(8192, 36)?;
    let core = core_of(rt.alloc(), &[])?;
    let core = core.as_slice();
    let cut = core_of(rt.alloc(), &[Part::Cut])?;
    let log = ONE_BLOCK.as_bytes();
    let other = b"+ 0x10100 0x20\n".as_slice();
    let cases = [
        ([core, log, core, other], FindError::NotPrefix),
        (
            [core, log, cut.as_slice(), log],
            FindError::Core(2, ElfError::Truncated(1)),
        ),
    ];
    for ([core1, log1, core2, log2], refusal) in cases {
        let mut readers = sources(rt.alloc(), core1, log1, core2, log2)?;
        let ran = run_over(&rt, rt.alloc(), &mut readers, &options);
        same(&rt, ran.answer, Err(RunFault::Find(refusal)));
        assert!(rt; ran.is_silent());
        // All was read before the search was made.
        same(&rt, readers.each_ref().map(|r| r.left()), [0; 4]);
    }
    Ok(())
}

#[test]
fn a_writer_that_fails_holds_what_the_fault_tells(rt: HostRuntime) -> Result<(), Fail> {
    let task = Task::Search(options(8192, 36)?);
    let core1 = core_of(rt.alloc(), &[])?;
    let core2 = core_of(rt.alloc(), &[Part::Word(0x10008, 0x10100)])?;
    let log = ONE_BLOCK.as_bytes();
    let report = HELD_UNREAD.as_bytes();
    for room in [0, 1, report.len() / 2, report.len().saturating_sub(1)] {
        let mut readers = sources(rt.alloc(), core1.as_slice(), log, core2.as_slice(), log)?;
        let mut out = Sink::of(rt.alloc(), room);
        let mut warned: Vec<u8> = Vec::new(rt.alloc());
        let result = run(
            &Context::silent(&rt, rt.alloc()),
            &mut readers,
            &task,
            &mut out,
            &mut warned,
        );
        let fault = WriteFault {
            written: room as u64,
        };
        same(&rt, result, Err(RunFault::Write(fault)));
        same_in(&rt, &room, Some(out.held.as_slice()), report.get(..room));
    }
    Ok(())
}
