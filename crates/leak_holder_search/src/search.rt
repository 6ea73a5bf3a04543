//! Who holds the memory of one core.

ghost use Rattle.std.specs.Prelude.{◌≡◌, ◌≢◌, ◌<◌, [], ◌∷◌, IfOk, IfErr};
ghost use Rattle.leak_index.specs.Readings.{distances_of};
ghost use Rattle.leak_search.specs.Inputs.{IsRead};
ghost use Rattle.leak_search.specs.Signs.{AreSigns};
ghost use Rattle.leak_holder_search.specs.Holders.{FindsHolders, IsFaultOfHolders};
ghost use Rattle.leak_holder_search.specs.Listed.{IsListed, OfListed};
ghost use Rattle.leak_holder_search.specs.Since.{earlier};

use crate::analysis::analysis_of;
use crate::files::Files;
use crate::listing::{ListedCore, list_for_holders};
use crate::logs::Logs;
use crate::ranking::rows_of;
use crate::report::text;
use leak_blocks::Live;
use leak_holders::{Progress, Workers};
use leak_pool::Plan;
use leak_report::Signs;
use leak_search::{FindError, Input, Rules, read_input};
use std::alloc::{AllocError, Global};
use std::thread::Threads;

/// Who holds the memory.
#[derive(Drop)]
pub struct Holding {
    /// The lines of the report, each with its line feed.
    pub report: Vec<u8>,
    /// What is odd about the core and its log.
    pub signs: Vec<Signs>,
}

/// Searches a core and its log by the rules, and tells which texts of callers hold the blocks that chains of words reach.
///
/// What each block leads to is listed once, and then marked over: once for all blocks, and once for each 64 texts. The progress is told of
/// these. The report doesn't depend on the plan, on the progress, or on how the workers meet.
///
/// # Errors
///
/// `Core`, `Notes`, `Log`, with input number 1; then `NotPrefix` if the earlier log's complete lines don't begin the log; then `TooMany`.
/// `NoMemory` can come at any time. Threads that can't be had are no error: the caller does their share.
pub fn find_holders<R: Threads + Sync, P: Progress>(
    rt: &R,
    alloc: Global,
    files: &Files,
    rules: Rules,
    plan: Plan,
    progress: &P,
) -> Result<Holding, FindError>
    ensures ok { IfOk result (FindsHolders files.now.core.now files.now.log.now
        (earlier files.now.since) (distances_of rules.reading) rules.skip) }
    ensures signs { IfOk result (λ found. AreSigns rules.other_heap
        (files.now.core.now ∷ files.now.log.now ∷ []) found.signs.items) }
    ensures refused { IfErr result (λ e. e ≢ FindError.NoMemory
        → IsFaultOfHolders files.now.core.now files.now.log.now (earlier files.now.since) e) }
{
    let input = read_input(alloc, 1, rules.skip, files.core, files.log)?;
    let workers = Workers::new(rt, plan.workers(), progress);
    let logs = Logs {
        log: files.log,
        since: files.since,
    };
    find_holders_in(&workers, alloc, &input, &logs, rules)
}

/// Searches an input by the rules, which left out of it what they leave out, and tells which texts of callers hold its
/// blocks. The log is that of which the input was read.
///
/// It gives what [`find_holders`] gives for the core and the logs.
///
/// # Errors
///
/// `NotPrefix`, `TooMany`, in this order, and `NoMemory` at any time.
pub fn find_holders_in<R: Threads + Sync, P: Progress>(
    workers: &Workers<'_, R, P>,
    alloc: Global,
    input: &Input,
    logs: &Logs,
    rules: Rules,
) -> Result<Holding, FindError>
    requires read { IsRead input.now.image logs.now.log.now input.now }
    requires skip { input.now.skip ≡ rules.skip }
    requires some { 0 < workers.now.count }
    ensures ok { IfOk result (FindsHolders input.now.image logs.now.log.now
        (earlier logs.now.since) (distances_of rules.reading) rules.skip) }
    ensures signs { IfOk result (λ found. AreSigns rules.other_heap
        (input.now.image ∷ logs.now.log.now ∷ []) found.signs.items) }
    ensures refused { IfErr result (λ e. e ≢ FindError.NoMemory
        → IsFaultOfHolders input.now.image logs.now.log.now (earlier logs.now.since) e) }
{
    let core = list_for_holders(workers, alloc, input, logs, rules)?;
    Ok(find_listed_holders(workers, alloc, &input.live, core, logs)?)
}

/// Tells which texts of callers hold the live blocks of an input, of whose core [`list_for_holders`] gave what is needed. The
/// logs are those of the input.
///
/// It gives what [`find_holders`] gives for the core and the logs. The only error is refused memory.
pub fn find_listed_holders<R: Threads + Sync, P: Progress>(
    workers: &Workers<'_, R, P>,
    alloc: Global,
    live: &Live,
    core: ListedCore,
    logs: &Logs,
) -> Result<Holding, AllocError>
    requires { IsListed live.now core.listed logs.now }
    ensures ok { IfOk result (λ found. OfListed live.now core.listed logs.now (λ input reading.
        FindsHolders input.image logs.now.log.now (earlier logs.now.since) reading input.skip
        found)) }
    ensures signs { IfOk result (λ found. found.signs.items ≡ core.signs.items) }
{
    let ListedCore { listed, signs } = core;
    let analysis = analysis_of(alloc, live, listed, logs)?;
    let rows = rows_of(workers, alloc, &analysis)?;
    let report = text(alloc, &analysis, rows.as_slice())?;
    Ok(Holding { report, signs })
}
