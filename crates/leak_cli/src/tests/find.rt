//! Runs over readers whose sizes are told.
ghost use Rattle.std.specs.Prelude.{IfOk, false, ◌≡◌};

use crate::tests::comparisons::{same, same_in};
use leak_elf::core_k;
use leak_find::{
    Context, Options, Plan, ReadFault, Reading, Rules, RunFault, Skip, Task, find_alone, read_all,
    run_sized,
};
use std::test::*;

/// A block of 32 bytes, in a log of 36.
const ONE_BLOCK: &[u8; 36] = b"@ ./a.out:[0x401136] + 0x10100 0x20\n";

#[test]
fn all_bytes_up_to_the_limit(rt: HostRuntime) -> Result<(), Fail> {
    let mut five: &[u8] = b"abcde";
    let read = read_all(rt.alloc(), &mut five, 5)?;
    same(&rt, read.as_slice(), b"abcde".as_slice());
    Ok(())
}

/// How one core and its log are read, if the log may have this many bytes.
fn options(log_limit: u64) -> Result<Options, Fail>
    ensures { IfOk result (λ options. options.two ≡ false) }
{
    Ok(Options {
        two: false,
        reading: Reading::interior(),
        skip: Skip::usual(),
        plan: Plan::new(1, 1, 0)?,
        other_heap: true,
        check: false,
        strict: false,
        core_limit: 8192,
        log_limit,
    })
}

/// The report of a core in which no word leads to the block.
const LEAKED: &str = "blocks 1 bytes 32\n\
                      undumped 0\n\
                      unknown 0 displaced 0 torn 0\n\
                      marked 0 bytes 0\n\
                      leaked 1 bytes 32\n\
                      heads 1\n\
                      caller 1 32 1 ./a.out:[0x401136]\n\
                      leak 0x10100 32 1 head ./a.out:[0x401136]\n";

/// What a core of 8,192 bytes and a log of 36 are said to have: nothing, too few, as many, too many, and more than any memory.
const SIZES_OF_TWO: [&[u64]; 11] = [
    &[],
    &[8192],
    &[0, 0],
    &[1, 1],
    &[8192, 36],
    &[36, 8192],
    &[300_000, 300_000],
    &[0x4000_0000_0000, 0x4000_0000_0000],
    &[i64::MAX as u64, i64::MAX as u64],
    &[u64::MAX, u64::MAX],
    &[8193, 37, 1],
];

#[test]
fn a_run_with_sizes_gives_the_report_without(rt: HostRuntime) -> Result<(), Fail> {
    let alloc = rt.alloc();
    let context = Context::silent(&rt, alloc);
    let core = core_k(alloc, &[])?;
    for sizes in SIZES_OF_TWO {
        for log_limit in [36, 37, u64::MAX] {
            let mut readers = [core.as_slice(), ONE_BLOCK.as_slice()];
            let mut out: Vec<u8> = Vec::new(alloc);
            let mut warned: Vec<u8> = Vec::new(alloc);
            let task = Task::Search(options(log_limit)?);
            let status = run_sized(&context, &mut readers, sizes, &task, &mut out, &mut warned)?;
            same_in(&rt, &(sizes, log_limit), status, 1);
            same_in(&rt, &(sizes, log_limit), out.as_slice(), LEAKED.as_bytes());
            assert!(rt; warned.is_empty());
        }
    }
    Ok(())
}

#[test]
fn a_run_with_sizes_refuses_by_the_limit(rt: HostRuntime) -> Result<(), Fail> {
    let alloc = rt.alloc();
    let context = Context::silent(&rt, alloc);
    let core = core_k(alloc, &[])?;
    for sizes in SIZES_OF_TWO {
        let mut readers = [core.as_slice(), ONE_BLOCK.as_slice()];
        let mut out: Vec<u8> = Vec::new(alloc);
        let mut warned: Vec<u8> = Vec::new(alloc);
        let task = Task::Search(options(30)?);
        let answer = run_sized(&context, &mut readers, sizes, &task, &mut out, &mut warned);
        let wanted = Err(RunFault::Read(2, ReadFault::TooLong));
        same_in(&rt, &sizes, answer, wanted);
        same_in(&rt, &sizes, readers[1].len(), 5);
        assert!(rt; out.is_empty());
    }
    Ok(())
}

#[test]
fn a_question_with_sizes_gives_the_answer_without(rt: HostRuntime) -> Result<(), Fail> {
    let alloc = rt.alloc();
    let context = Context::silent(&rt, alloc);
    let core = core_k(alloc, &[])?;
    for sizes in SIZES_OF_TWO {
        let mut readers = [core.as_slice(), ONE_BLOCK.as_slice()];
        let mut out: Vec<u8> = Vec::new(alloc);
        let task = Task::Why(options(36)?, 0x1011F);
        let mut told: Vec<u8> = Vec::new(alloc);
        let status = run_sized(&context, &mut readers, sizes, &task, &mut out, &mut told)?;
        same_in(&rt, &sizes, status, 1);
        let wanted = b"asked 0x10100 32 1 ./a.out:[0x401136]\nleaked\n";
        same_in(&rt, &sizes, out.as_slice(), wanted.as_slice());
        same_in(&rt, &sizes, told.as_slice(), b"".as_slice());
    }
    Ok(())
}

#[test]
fn the_example_of_the_front_page(rt: HostRuntime) -> Result<(), Fail> {
    let alloc = rt.alloc();
    let core = core_k(alloc, &[])?;
    let found = find_alone(alloc, &core, ONE_BLOCK, Rules::usual(), false)?;
    same(&rt, found.leaked, 1);
    Ok(())
}
