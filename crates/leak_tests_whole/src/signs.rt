//! Warnings that a core and its log don't belong together, if a writer fails.

ghost use Rattle.std.specs.Prelude.{IfOk, false, ◌≡◌};

use crate::comparisons::same;
use crate::samples::core_of;
use leak_find::{Context, Options, RunFault, Skip, Task, run};
use leak_index::Reading;
use leak_pool::Plan;
use leak_tests_inputs::examples::{LOST, ONE_BLOCK};
use leak_tests_inputs::fakes::{Sink, Taker, Turn};
use std::test::Fail;

/// One core is searched, its heap is glibc's, and warnings have a status.
fn options() -> Result<Options, Fail>
    ensures { IfOk result (λ options. options.two ≡ false) }
{
    Ok(Options {
        two: false,
        reading: Reading::interior(),
        skip: Skip::usual(),
        plan: Plan::new(2, 512, 1024)?,
        other_heap: false,
        check: false,
        strict: true,
        core_limit: 8192,
        log_limit: 1000,
    })
}

const MISFIT: &str =
    "leak_find: warning: input 1: 1 of 1 live blocks have no chunk of their size in use in the \
    core: the log is of another moment, or of another process\n";

#[test]
fn a_writer_that_takes_no_warning_loses_no_report(rt: HostRuntime) -> Result<(), Fail> {
    let core = core_of(rt.alloc(), &[])?;
    let task = Task::Search(options()?);
    for room in [0, 1, 100] {
        let mut readers = [core.as_slice(), ONE_BLOCK.as_bytes()];
        let mut out: Vec<u8> = Vec::new(rt.alloc());
        let mut warned = Sink::of(rt.alloc(), room);
        let status = run(
            &Context::silent(&rt, rt.alloc()),
            &mut readers,
            &task,
            &mut out,
            &mut warned,
        )?;
        same(&rt, out.as_slice(), LOST.as_bytes());
        same(&rt, status, 3);
        same(&rt, warned.held.len(), room);
        assert!(rt; MISFIT.as_bytes().starts_with(warned.held.as_slice()));
    }
    Ok(())
}

#[test]
fn a_report_that_is_not_written_has_no_warning(rt: HostRuntime) -> Result<(), Fail> {
    let core = core_of(rt.alloc(), &[])?;
    let task = Task::Search(options()?);
    let mut readers = [core.as_slice(), ONE_BLOCK.as_bytes()];
    let mut out = Taker::of(rt.alloc(), &[Turn::Bytes(5), Turn::Fails])?;
    let mut warned: Vec<u8> = Vec::new(rt.alloc());
    let result = run(
        &Context::silent(&rt, rt.alloc()),
        &mut readers,
        &task,
        &mut out,
        &mut warned,
    );
    assert!(rt; matches!(result, Err(RunFault::Write(_))));
    assert!(rt; warned.is_empty());
    Ok(())
}
