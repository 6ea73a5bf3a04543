//! Runs that ask who holds the memory: their core is read in one pass, and the answer is that for a core that is held.

ghost use Rattle.std.specs.Prelude.{◌≡◌, ◌⊎◌, length};

use crate::comparisons::{same, same_in};
use crate::samples::{Part, core_of};
use leak_find::{
    Context, Files, FindError, Options, Question, ReadFault, Rules, RunFault, Side, Silent, Skip,
    Task, find_held, find_holders, run,
};
use leak_index::Reading;
use leak_pool::Plan;
use std::test::Fail;
use std::thread::Threads;

/// Two blocks of two callers: a root word leads to the first, and it to the second.
const LOG: &str = "@ a:[0x1] + 0x10100 0x20\n@ b:[0x2] + 0x10200 0x10\n";

/// The line of the first.
const EARLIER: &str = "@ a:[0x1] + 0x10100 0x20\n";

/// Another log than the first lines of it.
const ANOTHER: &str = "@ c:[0x1] + 0x10100 0x20\n";

/// The words that lead to the blocks, and one that leads nowhere.
const WORDS: [Part; 3] = [
    Part::Word(0x10008, 0x10100),
    Part::Word(0x10100, 0x10200),
    Part::Word(0x10108, 0x20000),
];

/// Who holds the memory, what the blocks of the first text hold, and who holds the second block.
const QUESTIONS: [Option<Question>; 3] = [
    None,
    Some(Question {
        address: 0x10100,
        side: Side::In,
        alone: false,
    }),
    Some(Question {
        address: 0x10200,
        side: Side::Of,
        alone: true,
    }),
];

/// The options of a run, with a limit for logs.
fn options_of(log_limit: u64) -> Result<Options, Fail> {
    Ok(Options {
        two: false,
        reading: Reading::interior(),
        skip: Skip::usual(),
        plan: Plan::new(2, 16, 4)?,
        other_heap: false,
        check: false,
        strict: false,
        core_limit: 8192,
        log_limit,
    })
}

/// What a run over the readers answers to the task, and what it writes.
fn told<R: AllocGlobal + Threads + Sync>(
    rt: &R,
    readers: &mut [&[u8]],
    question: Option<Question>,
    log_limit: u64,
) -> Result<(Result<u8, RunFault>, Vec<u8>), Fail>
    requires { (length readers.old ≡ 2) ⊎ (length readers.old ≡ 3) }
{
    let alloc = rt.alloc();
    let task = Task::Holders(options_of(log_limit)?, question);
    let mut out: Vec<u8> = Vec::new(alloc);
    let mut warned: Vec<u8> = Vec::new(alloc);
    let context = Context::silent(rt, alloc);
    let answer = run(&context, readers, &task, &mut out, &mut warned);
    Ok((answer, out))
}

/// The answer to the question for the files, of which the core is held.
fn told_held<R: AllocGlobal + Threads + Sync>(
    rt: &R,
    files: &Files,
    question: Option<Question>,
) -> Result<Vec<u8>, Fail> {
    let (alloc, rules, plan) = (rt.alloc(), Rules::usual(), Plan::new(1, 1, 0)?);
    let holding = match question {
        Some(question) => find_held(rt, alloc, files, question, rules, plan, &Silent)?,
        None => find_holders(rt, alloc, files, rules, plan, &Silent)?,
    };
    Ok(holding.report)
}

#[test]
fn a_passed_core_has_the_answers_of_a_held_one(rt: HostRuntime) -> Result<(), Fail> {
    let core = core_of(rt.alloc(), &WORDS)?;
    let (core, log) = (core.as_slice(), LOG.as_bytes());
    let files = Files {
        core,
        log,
        since: None,
    };
    for question in QUESTIONS {
        let mut readers = [core, log];
        let (answer, out) = told(&rt, &mut readers, question, 100)?;
        let held = told_held(&rt, &files, question)?;
        same_in(&rt, &question, answer, Ok(0));
        same_in(&rt, &question, out.as_slice(), held.as_slice());
    }
    Ok(())
}

#[test]
fn so_it_has_with_an_earlier_log(rt: HostRuntime) -> Result<(), Fail> {
    let core = core_of(rt.alloc(), &WORDS)?;
    let (core, log, earlier) = (core.as_slice(), LOG.as_bytes(), EARLIER.as_bytes());
    let files = Files {
        core,
        log,
        since: Some(earlier),
    };
    for question in QUESTIONS {
        let mut readers = [core, log, earlier];
        let (answer, out) = told(&rt, &mut readers, question, 100)?;
        let held = told_held(&rt, &files, question)?;
        same_in(&rt, &question, answer, Ok(0));
        same_in(&rt, &question, out.as_slice(), held.as_slice());
    }
    Ok(())
}

#[test]
fn the_earlier_log_is_read_last(rt: HostRuntime) -> Result<(), Fail> {
    let core = core_of(rt.alloc(), &WORDS)?;
    let mut readers = [core.as_slice(), LOG.as_bytes(), LOG.as_bytes()];
    let (answer, out) = told(&rt, &mut readers, None, 49)?;
    same(&rt, answer, Err(RunFault::Read(2, ReadFault::TooLong)));
    assert!(rt; out.is_empty());
    let mut readers = [core.as_slice(), EARLIER.as_bytes(), LOG.as_bytes()];
    let (answer, out) = told(&rt, &mut readers, None, 49)?;
    same(&rt, answer, Err(RunFault::Read(3, ReadFault::TooLong)));
    assert!(rt; out.is_empty());
    Ok(())
}

#[test]
fn an_earlier_log_that_is_another_is_refused(rt: HostRuntime) -> Result<(), Fail> {
    let core = core_of(rt.alloc(), &WORDS)?;
    for question in QUESTIONS {
        let mut readers = [core.as_slice(), LOG.as_bytes(), ANOTHER.as_bytes()];
        let (answer, out) = told(&rt, &mut readers, question, 100)?;
        let fault = RunFault::Find(FindError::NotPrefix);
        same_in(&rt, &question, answer, Err(fault));
        assert!(rt; out.is_empty());
    }
    Ok(())
}
