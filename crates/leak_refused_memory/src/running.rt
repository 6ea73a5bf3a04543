//! Whole runs, from readers to writers.

ghost use Rattle.std.specs.Prelude.{◌≡◌, length};
ghost use Rattle.leak_find.specs.Tasks.{TakesInputs};

use crate::alone::{HELD, LOST};
use crate::answer::Answer;
use crate::samples::{MOVED, ONE_BLOCK, TWO_BLOCKS, core_of};
use crate::whole::{ASKED, HOLDING, TWO, holding_core, later_core};
use leak_find::{Context, FindError, Options, ReadFault, RunFault, Skip, Task, run, run_sized};
use leak_index::Reading;
use leak_pool::Plan;
use std::alloc::Global;
use std::io::Cursor;
use std::thread::Threads;

/// Whether a run met want of memory, in reading or in the search.
pub(crate) fn is_wanting(fault: &RunFault) -> bool {
    match fault {
        RunFault::Read(_, ReadFault::NoMemory) => true,
        RunFault::Find(FindError::NoMemory) => true,
        _ => false,
    }
}

/// How the runs search, by the workers of the plan.
pub(crate) fn options(two: bool, plan: Plan) -> Options
    ensures { result.two ≡ two }
{
    Options {
        two,
        reading: Reading::interior(),
        skip: Skip::usual(),
        plan,
        other_heap: false,
        check: false,
        strict: false,
        core_limit: 8192,
        log_limit: 8192,
    }
}

/// Runs by the readers, with their sizes if they are given.
fn end_of<R: AllocGlobal + Threads + Sync>(
    rt: &R,
    readers: &mut [Cursor<Vec<u8>>],
    sizes: Option<&[u64]>,
    task: &Task,
    written: &mut Vec<u8>,
    warned: &mut Vec<u8>,
) -> Result<u8, RunFault>
    requires { TakesInputs task.now (length readers.old) }
{
    let context = Context::silent(rt, rt.alloc());
    match sizes {
        Some(sizes) => run_sized(&context, readers, sizes, task, written, warned),
        None => run(&context, readers, task, written, warned),
    }
}

/// What a run answers, if it is to write the report and to end with the status. The writers have room for all of it,
/// and after want of memory nothing is written. If sizes are given, the readers come with them.
pub(crate) fn run_of<R: AllocGlobal + Threads + Sync>(
    rt: &R,
    readers: &mut [Cursor<Vec<u8>>],
    sizes: Option<&[u64]>,
    task: &Task,
    report: &str,
    status: u8,
) -> Option<Answer>
    requires { TakesInputs task.now (length readers.old) }
{
    let mut written: Vec<u8> = Vec::with_capacity(rt.alloc(), 1000).ok()?;
    let mut warned: Vec<u8> = Vec::with_capacity(rt.alloc(), 1000).ok()?;
    let answer = match end_of(rt, readers, sizes, task, &mut written, &mut warned) {
        Ok(given) => Answer::of(given == status && written.as_slice() == report.as_bytes()),
        Err(fault) => {
            Answer::of_refusal(is_wanting(&fault) && written.is_empty() && warned.is_empty())
        }
    };
    Some(answer)
}

/// What a search over the inputs answers, if it is to write the report and to end with the status.
fn search_of<R: AllocGlobal + Threads + Sync>(
    rt: &R,
    inputs: Vec<Vec<u8>>,
    sizes: Option<&[u64]>,
    two: bool,
    report: &str,
    status: u8,
) -> Option<Answer> {
    let mut readers = Vec::new(rt.alloc());
    for input in inputs {
        readers.push(Cursor::new(input)).ok()?;
    }
    let task = Task::Search(options(two, Plan::new(3, 16, 4).ok()?));
    if readers.len() != if two { 4 } else { 2 } {
        return Some(Answer::Other);
    }
    run_of(rt, readers.as_mut_slice(), sizes, &task, report, status)
}

/// `run` over one lost block, and over one that is held.
pub(crate) fn runs<R: AllocGlobal + Threads + Sync>(rt: &R) -> Option<Answer> {
    lost_and_held(rt, None)
}

/// `run_sized` over the same, with the sizes of the core and the log.
pub(crate) fn runs_sized<R: AllocGlobal + Threads + Sync>(rt: &R) -> Option<Answer> {
    lost_and_held(rt, Some(&[8192, ONE_BLOCK.len() as u64]))
}

/// A run over one lost block, and over one that is held.
fn lost_and_held<R: AllocGlobal + Threads + Sync>(rt: &R, sizes: Option<&[u64]>) -> Option<Answer> {
    let lost = one_block_in(rt.alloc(), &[])?;
    let first = search_of(rt, lost, sizes, false, LOST, 1)?;
    let held = one_block_in(rt.alloc(), &[(0x10008, 0x10100)])?;
    Some(first.worse(search_of(rt, held, sizes, false, HELD, 0)?))
}

/// The sample core with the words set, and the log of one block.
fn one_block_in(alloc: Global, words: &[(u64, u64)]) -> Option<Vec<Vec<u8>>> {
    let mut inputs = Vec::new(alloc);
    inputs.push(core_of(alloc, words)?).ok()?;
    inputs.push(ONE_BLOCK.as_bytes().to_vec(alloc).ok()?).ok()?;
    Some(inputs)
}

/// `run` over two cores.
pub(crate) fn runs_two<R: AllocGlobal + Threads + Sync>(rt: &R) -> Option<Answer> {
    let alloc = rt.alloc();
    let mut inputs = Vec::new(alloc);
    inputs.push(core_of(alloc, &[(0x10100, 0x10200)])?).ok()?;
    inputs.push(TWO_BLOCKS.as_bytes().to_vec(alloc).ok()?).ok()?;
    inputs.push(later_core(alloc)?).ok()?;
    inputs.push(MOVED.as_bytes().to_vec(alloc).ok()?).ok()?;
    search_of(rt, inputs, None, true, TWO, 0)
}

/// `run` that asks for the same block.
pub(crate) fn runs_why<R: AllocGlobal + Threads + Sync>(rt: &R) -> Option<Answer> {
    why_of(rt, None)
}

/// `run_sized` that asks for the same block, with the sizes of the core and the log.
pub(crate) fn runs_why_sized<R: AllocGlobal + Threads + Sync>(rt: &R) -> Option<Answer> {
    why_of(rt, Some(&[8192, HOLDING.len() as u64]))
}

/// What a run that asks for the block answers. If sizes are given, the readers come with them.
fn why_of<R: AllocGlobal + Threads + Sync>(rt: &R, sizes: Option<&[u64]>) -> Option<Answer> {
    let alloc = rt.alloc();
    let mut readers = Vec::new(alloc);
    readers.push(Cursor::new(holding_core(alloc)?)).ok()?;
    readers
        .push(Cursor::new(HOLDING.as_bytes().to_vec(alloc).ok()?))
        .ok()?;
    let task = Task::Why(options(false, Plan::new(1, 1, 0).ok()?), 0x10200);
    if readers.len() != 2 {
        return Some(Answer::Other);
    }
    run_of(rt, readers.as_mut_slice(), sizes, &task, ASKED, 0)
}
