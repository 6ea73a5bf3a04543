//! The calls that search files' bytes, read an input or read a command line.

use crate::answer::Answer;
use crate::samples::{MOVED, Sample, TWO_BLOCKS, chain, core_of, set};
use leak_find::{
    FindError, Found, ReadFault, Request, Rules, UsageFault, WhyError, Workers, find_one, find_two,
    find_why, read_all, request,
};
use leak_pool::{Open, Plan};
use std::alloc::Global;
use std::io::Cursor;
use std::thread::Threads;

/// How many blocks leaked, or why there is no report. A fault of an input is never want of memory.
pub(crate) fn answer_of(found: Result<Found, FindError>, report: &str) -> Answer {
    match found {
        Ok(found) => Answer::of(found.report.as_slice() == report.as_bytes()),
        Err(error) => Answer::of_refusal(error == FindError::NoMemory),
    }
}

/// The report of the chain of a hundred.
const CHAIN: &str = "blocks 100 bytes 1600\n\
                     undumped 0\n\
                     unknown 0 displaced 0 torn 0\n\
                     marked 100 bytes 1600\n\
                     leaked 0 bytes 0\n\
                     heads 0\n";

/// The report of two cores between which a block was moved to where it was.
pub(crate) const TWO: &str = "blocks 2 bytes 48\n\
                   undumped 0\n\
                   unknown 0 displaced 0 torn 0\n\
                   new 1 bytes 32\n\
                   reread 0\n\
                   marked 2 bytes 48\n\
                   leaked 0 bytes 0\n\
                   heads 0\n";

/// `find_one` of the chain of a hundred by three workers.
pub(crate) fn by_workers<R: AllocGlobal + Threads + Sync>(rt: &R) -> Option<Answer> {
    let sample: Sample = chain(rt.alloc())?;
    let (plan, gate) = (Plan::new(3, 16, 4).ok()?, &Open);
    let workers = Workers { rt, plan, gate };
    let found = find_one(
        &workers,
        rt.alloc(),
        sample.core.as_slice(),
        sample.log.as_bytes(),
        Rules::usual(),
        false,
    );
    Some(answer_of(found, CHAIN))
}

/// The later of the two cores: a register leads to the moved block.
pub(crate) fn later_core(alloc: Global) -> Option<Vec<u8>> {
    let mut core = core_of(alloc, &[(0x10100, 0x10200)])?;
    set(&mut core, 348, &0x10100u64.to_le_bytes());
    Some(core)
}

/// `find_two` of two cores by three workers.
pub(crate) fn two_cores<R: AllocGlobal + Threads + Sync>(rt: &R) -> Option<Answer> {
    let first = core_of(rt.alloc(), &[(0x10100, 0x10200)])?;
    let second = later_core(rt.alloc())?;
    let (plan, gate) = (Plan::new(3, 16, 4).ok()?, &Open);
    let workers = Workers { rt, plan, gate };
    let found = find_two(
        &workers,
        rt.alloc(),
        first.as_slice(),
        TWO_BLOCKS.as_bytes(),
        second.as_slice(),
        MOVED.as_bytes(),
        Rules::usual(),
        false,
    );
    Some(answer_of(found, TWO))
}

/// Two blocks, the first of which holds the second.
pub(crate) const HOLDING: &str = "+ 0x10100 0x20\n+ 0x10200 0x10\n";

/// What holds the second block: the first, which a root word leads to.
pub(crate) const ASKED: &str = "asked 0x10200 16 2 ?\n\
                     root 0x10008 holds 0x10100\n\
                     block 0x10100 32 1 ?\n\
                     word 0x10100 holds 0x10200\n\
                     block 0x10200 16 2 ?\n";

/// A core in which a root word leads to the first block, and the first block to the second.
pub(crate) fn holding_core(alloc: Global) -> Option<Vec<u8>> {
    core_of(alloc, &[(0x10008, 0x10100), (0x10100, 0x10200)])
}

/// `find_why` of a block that another holds.
pub(crate) fn held_by(alloc: Global) -> Option<Answer> {
    let core = holding_core(alloc)?;
    let answer = match find_why(alloc, &core, HOLDING.as_bytes(), Rules::usual(), 0x10200) {
        Ok(why) => Answer::of(why.held && why.text.as_slice() == ASKED.as_bytes()),
        Err(error) => Answer::of_refusal(error == WhyError::Find(FindError::NoMemory)),
    };
    Some(answer)
}

/// `read_all` of five bytes with a limit of five.
pub(crate) fn input(alloc: Global) -> Option<Answer> {
    let mut reader = Cursor::new(b"bytes".to_vec(alloc).ok()?);
    match read_all(alloc, &mut reader, 5) {
        Ok(bytes) => Some(Answer::of(bytes.as_slice() == b"bytes".as_slice())),
        Err(fault) => Some(Answer::of_refusal(fault == ReadFault::NoMemory)),
    }
}

/// `request` of the plainest words.
pub(crate) fn command_line(alloc: Global) -> Option<Answer> {
    let mut words = Vec::new(alloc);
    for word in ["leak_find", "one", "core.1", "trace.log"] {
        words.push(word.to_string(alloc).ok()?).ok()?;
    }
    if words.is_empty() {
        return Some(Answer::Other);
    }
    match request(alloc, words.as_slice()) {
        Ok(Request::Search(request)) => Some(Answer::of(
            !request.options.two
                && request.paths.len() == 2
                && request.options.plan.workers() == 4
                && request.options.plan.piece() == 512
                && request.options.plan.stack() == 1024,
        )),
        Err(UsageFault::NoMemory) => Some(Answer::Wanting),
        _ => Some(Answer::Other),
    }
}
