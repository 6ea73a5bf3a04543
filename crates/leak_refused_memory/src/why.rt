//! Questions who holds the memory, and what grew.

use crate::answer::Answer;
use crate::running::{options, run_of};
use crate::samples::core_of;
use leak_find::{
    Files, FindError, GrowOptions, Plan, Question, Rules, Side, Silent, Task, WhyError,
    find_growth, find_held, find_holders,
};
use std::alloc::Global;
use std::io::Cursor;
use std::thread::Threads;

/// Two blocks of two callers.
const HELD: &str = "@ a:[0x1] + 0x10100 0x20\n@ b:[0x2] + 0x10200 0x10\n";

/// Who holds them, if a root word leads to the first, and it to the second.
const HOLDERS: &str =
    "blocks 2 bytes 48\nundumped 0\nunknown 0 displaced 0 torn 0\nmarked 2 bytes 48\n\
                       leaked 0 bytes 0\nholder 2 48 1 32 0 0x10100 a:[0x1]\n\
                       holder 1 16 1 16 1 0x10200 b:[0x2]\n";

/// Who holds the second of them alone.
const LATER: &str =
    "blocks 2 bytes 48\nundumped 0\nunknown 0 displaced 0 torn 0\nnew 1 bytes 16\nmarked 2 bytes 48\n\
                     leaked 0 bytes 0\nholder 1 16 0 0 0 0x10100 a:[0x1]\n\
                     holder 1 16 1 16 1 0x10200 b:[0x2]\n";

/// What the first holds.
const IN_FIRST: &str =
    "asked 0x10100 32 1 a:[0x1]\nheld 2 bytes 48\nin 1 32 a:[0x1]\nin 1 16 b:[0x2]\n";

/// Who holds the second.
const OF_SECOND: &str = "asked 0x10200 16 2 b:[0x2]\nheld 1 bytes 16\nby 1 16 a:[0x1]\n";

/// The first of them.
const EARLIER: &str = "@ a:[0x1] + 0x10100 0x20\n";

/// What grew since then.
const GREW: &str = "then 1 bytes 32\nnow 2 bytes 48\nnew 1 bytes 16\nunknown 0 displaced 0 torn 0\n\
                    grew 16 0 0 1 16 1 16 b:[0x2]\n";

/// The core of these blocks.
fn holding_core(alloc: Global) -> Option<Vec<u8>> {
    core_of(alloc, &[(0x10008, 0x10100), (0x10100, 0x10200)])
}

/// `find_holders` by three workers.
pub(crate) fn holders<R: AllocGlobal + Threads + Sync>(rt: &R) -> Option<Answer> {
    holders_by(rt, None, HOLDERS)
}

/// The same of the blocks of later lines than the first.
pub(crate) fn holders_since<R: AllocGlobal + Threads + Sync>(rt: &R) -> Option<Answer> {
    holders_by(rt, Some(EARLIER.as_bytes()), LATER)
}

/// `find_holders` with or without an earlier log.
fn holders_by<R: AllocGlobal + Threads + Sync>(
    rt: &R,
    since: Option<&[u8]>,
    wanted: &str,
) -> Option<Answer> {
    let core = holding_core(rt.alloc())?;
    let plan = Plan::new(3, 16, 4).ok()?;
    let files = Files {
        core: &core,
        log: HELD.as_bytes(),
        since,
    };
    let answer = match find_holders(rt, rt.alloc(), &files, Rules::usual(), plan, &Silent) {
        Ok(found) => Answer::of(found.report.as_slice() == wanted.as_bytes()),
        Err(error) => Answer::of_refusal(error == FindError::NoMemory),
    };
    Some(answer)
}

/// `find_held` of the first block.
pub(crate) fn held_in<R: AllocGlobal + Threads + Sync>(rt: &R) -> Option<Answer> {
    held_by(rt, question(0x10100, Side::In), IN_FIRST)
}

/// `find_held` of the second block, by who holds it.
pub(crate) fn held_of<R: AllocGlobal + Threads + Sync>(rt: &R) -> Option<Answer> {
    held_by(rt, question(0x10200, Side::Of), OF_SECOND)
}

/// The question about all blocks of a text.
fn question(address: u64, side: Side) -> Question {
    Question {
        address,
        side,
        alone: false,
    }
}

/// `find_held`, since an empty log.
fn held_by<R: AllocGlobal + Threads + Sync>(
    rt: &R,
    question: Question,
    wanted: &str,
) -> Option<Answer> {
    let core = holding_core(rt.alloc())?;
    let plan = Plan::new(3, 16, 4).ok()?;
    let files = Files {
        core: &core,
        log: HELD.as_bytes(),
        since: Some(b""),
    };
    let answer = match find_held(
        rt,
        rt.alloc(),
        &files,
        question,
        Rules::usual(),
        plan,
        &Silent,
    ) {
        Ok(found) => Answer::of(found.report.as_slice() == wanted.as_bytes()),
        Err(error) => Answer::of_refusal(error == WhyError::Find(FindError::NoMemory)),
    };
    Some(answer)
}

/// `find_growth` of two logs.
pub(crate) fn growth(alloc: Global) -> Option<Answer> {
    let answer = match find_growth(alloc, EARLIER.as_bytes(), HELD.as_bytes()) {
        Ok(grown) => Answer::of(grown.report.as_slice() == GREW.as_bytes()),
        Err(error) => Answer::of_refusal(error == FindError::NoMemory),
    };
    Some(answer)
}

/// `run_sized` over the core and its log, that asks who holds the memory.
pub(crate) fn runs_holders<R: AllocGlobal + Threads + Sync>(rt: &R) -> Option<Answer> {
    runs_by(rt, None, None, HOLDERS)
}

/// The same with an earlier log and a question.
pub(crate) fn runs_held<R: AllocGlobal + Threads + Sync>(rt: &R) -> Option<Answer> {
    runs_by(
        rt,
        Some(EARLIER),
        Some(question(0x10200, Side::Of)),
        OF_SECOND,
    )
}

/// `run_sized` over the core, its log and, if there is one, the earlier log.
fn runs_by<R: AllocGlobal + Threads + Sync>(
    rt: &R,
    since: Option<&str>,
    question: Option<Question>,
    wanted: &str,
) -> Option<Answer> {
    let alloc = rt.alloc();
    let mut readers = readers_of(alloc, since)?;
    let task = Task::Holders(options(false, Plan::new(3, 16, 4).ok()?), question);
    if readers.len() != 2 && readers.len() != 3 {
        return Some(Answer::Other);
    }
    let sizes = [8192, HELD.len() as u64, 25];
    run_of(rt, readers.as_mut_slice(), Some(&sizes), &task, wanted, 0)
}

/// Readers of the core, its log and, if there is one, the earlier log.
fn readers_of(alloc: Global, since: Option<&str>) -> Option<Vec<Cursor<Vec<u8>>>> {
    let mut readers = Vec::new(alloc);
    readers.push(Cursor::new(holding_core(alloc)?)).ok()?;
    readers
        .push(Cursor::new(HELD.as_bytes().to_vec(alloc).ok()?))
        .ok()?;
    if let Some(log) = since {
        readers
            .push(Cursor::new(log.as_bytes().to_vec(alloc).ok()?))
            .ok()?;
    }
    Some(readers)
}

/// `run_sized` over both logs, that asks what grew.
pub(crate) fn runs_grow<R: AllocGlobal + Threads + Sync>(rt: &R) -> Option<Answer> {
    let alloc = rt.alloc();
    let mut readers = Vec::new(alloc);
    readers
        .push(Cursor::new(EARLIER.as_bytes().to_vec(alloc).ok()?))
        .ok()?;
    readers
        .push(Cursor::new(HELD.as_bytes().to_vec(alloc).ok()?))
        .ok()?;
    let task = Task::Grow(GrowOptions {
        strict: false,
        log_limit: 8192,
    });
    if readers.len() != 2 {
        return Some(Answer::Other);
    }
    let sizes = [EARLIER.len() as u64, HELD.len() as u64];
    run_of(rt, readers.as_mut_slice(), Some(&sizes), &task, GREW, 0)
}
