//! Searches and runs in few words: what most tests have in common is here once.

ghost use Rattle.std.specs.Prelude.{◌≡◌, length};
ghost use Rattle.leak_request.specs.Requests.{file_count};

use crate::comparisons::same_in;
use leak_find::{
    Context, FindError, Found, Options, Rules, RunFault, Task, Workers, find_alone, find_one,
    find_two, run,
};
use leak_pool::{Open, Plan};
use std::alloc::Global;
use std::fmt::Debug;
use std::io::Read;
use std::process::Abort;
use std::thread::Threads;

/// What the caller's thread finds in a core and its log.
pub fn alone(alloc: Global, core: &[u8], log: &[u8]) -> Result<Found, FindError> {
    find_alone(alloc, core, log, Rules::usual(), false)
}

/// What the workers of the plan find in a core and its log.
pub fn by_plan<R: Threads + Sync>(
    rt: &R,
    alloc: Global,
    core: &[u8],
    log: &[u8],
    plan: Plan,
) -> Result<Found, FindError> {
    let gate = &Open;
    let workers = Workers { rt, plan, gate };
    find_one(&workers, alloc, core, log, Rules::usual(), false)
}

/// What they find in two cores, each with its log.
pub fn of_two<R: Threads + Sync>(
    rt: &R,
    alloc: Global,
    first: (&[u8], &[u8]),
    second: (&[u8], &[u8]),
    plan: Plan,
) -> Result<Found, FindError> {
    let (core1, log1) = first;
    let (core2, log2) = second;
    let gate = &Open;
    let workers = Workers { rt, plan, gate };
    find_two(
        &workers,
        alloc,
        core1,
        log1,
        core2,
        log2,
        Rules::usual(),
        false,
    )
}

/// Ends the test if the report is another.
pub fn reports<C: Debug>(rt: &impl Abort, case: &C, found: &Found, report: &str) {
    same_in(rt, case, found.report.as_slice(), report.as_bytes());
}

/// Ends the test if the report is another, or the number of leaked blocks or of lists of claims.
pub fn gives<C: Debug>(
    rt: &impl Abort,
    case: &C,
    found: &Found,
    report: &str,
    leaked: u64,
    workers: usize,
) {
    reports(rt, case, found, report);
    same_in(rt, case, found.leaked, leaked);
    same_in(rt, case, found.claims.len(), workers);
}

/// What a run answers, and what its writers hold then.
#[derive(Drop)]
pub struct Ran {
    pub answer: Result<u8, RunFault>,
    pub out: Vec<u8>,
    pub warned: Vec<u8>,
}

impl Ran {
    /// Whether nothing was written.
    pub fn is_silent(&self) -> bool {
        self.out.is_empty() && self.warned.is_empty()
    }
}

/// Runs over the readers.
pub fn run_over<T: Threads + Sync, R: Read>(
    rt: &T,
    alloc: Global,
    readers: &mut [R],
    options: &Options,
) -> Ran
    requires { length readers.old ≡ file_count options.now.two }
{
    let mut out = Vec::new(alloc);
    let mut warned: Vec<u8> = Vec::new(alloc);
    let (context, task) = (Context::silent(rt, alloc), Task::Search(*options));
    let answer = run(&context, readers, &task, &mut out, &mut warned);
    Ran {
        answer,
        out,
        warned,
    }
}
