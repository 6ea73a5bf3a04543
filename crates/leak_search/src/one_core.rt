//! The search of one core by worker threads.

ghost use Rattle.std.specs.Prelude.{◌≡◌, ◌≢◌, [], ◌∷◌, IfOk, IfErr};
ghost use Rattle.leak_index.specs.Readings.{distances_of};
ghost use Rattle.leak_search.specs.Inputs.{IsFaultOfOne, IsRead};
ghost use Rattle.leak_search.specs.Search.{FindsOne};
ghost use Rattle.leak_search.specs.Searched.{MarksOne, OfLogs};
ghost use Rattle.leak_search.specs.Signs.{AreSigns};

use crate::preparing::prepare_to_mark;
use crate::{
    Consistency, FindError, Found, Input, Rules, Searched, Workers, consistency_of_one_by,
    found_of, mark_input, read_input, searched_of,
};
use leak_pool::Gate;
use leak_report::CallerTexts;
use std::alloc::Global;

/// Searches a core and its log by the rules and by the workers.
///
/// `core` holds the bytes of an ELF64 core of x86-64 Linux, and `log` those of a log of the same process in mtrace(3)'s format.
/// `lists_misfits` says whether the report lists the misfits: without it no block of another heap than glibc's is asked whether it
/// is one. The report, the leaked blocks and which blocks are claimed don't depend on the workers' plan, on their gate, or on how
/// they meet; the worker by which a block is claimed does. There is one list of claims for each worker, even if it is empty.
///
/// # Errors
///
/// The first by the order of [`FindError`], with input number 1: `Core`, `Notes`, `Log`, `TooMany`. `NoMemory` can come at
/// any time. Threads that can't be had are no error: the caller does their share.
pub fn find_one<R: std::thread::Threads + Sync, G: Gate + Sync>(
    workers: &Workers<'_, R, G>,
    alloc: Global,
    core: &[u8],
    log: &[u8],
    rules: Rules,
    lists_misfits: bool,
) -> Result<Found, FindError>
    ensures ok { IfOk result (FindsOne core.now log.now (distances_of rules.reading) rules.skip
        lists_misfits workers.now.plan.workers) }
    ensures signs { IfOk result (λ found.
        AreSigns rules.other_heap (core.now ∷ log.now ∷ []) found.signs.items) }
    ensures refused { IfErr result (λ e. e ≢ FindError.NoMemory
        → IsFaultOfOne core.now log.now e) }
{
    let input = read_input(alloc, 1, rules.skip, core, log)?;
    find_in(workers, alloc, &input, log, rules, lists_misfits)
}

/// Searches an input by the rules, which left out of it what they leave out, and by the workers. `log` holds the bytes of the log
/// of which it was read.
///
/// It gives what [`find_one`] gives for the core and the log of which the input was read.
///
/// # Errors
///
/// `TooMany`, and `NoMemory` at any time.
pub fn find_in<R: std::thread::Threads + Sync, G: Gate + Sync>(
    workers: &Workers<'_, R, G>,
    alloc: Global,
    input: &Input,
    log: &[u8],
    rules: Rules,
    lists_misfits: bool,
) -> Result<Found, FindError>
    requires read { IsRead input.now.image log.now input.now }
    requires skip { input.now.skip ≡ rules.skip }
    ensures ok { IfOk result (FindsOne input.now.image log.now
        (distances_of rules.reading) rules.skip lists_misfits workers.now.plan.workers) }
    ensures signs { IfOk result (λ found. AreSigns rules.other_heap
        (input.now.image ∷ log.now ∷ []) found.signs.items) }
    ensures refused { IfErr result (λ e. e ≢ FindError.NoMemory
        → IsFaultOfOne input.now.image log.now e) }
{
    let team = workers.team(alloc);
    let consistency = consistency_of_one_by(&team, input, lists_misfits, rules.other_heap)?;
    let searched = search_from(workers, alloc, input, consistency, rules)?;
    found_of(alloc, &input.live, searched, CallerTexts::OfLog(log))
}

/// Does all of [`find_in`] but ask which blocks fit, which [`consistency_of_one_by`] does, and but write the report, which
/// [`found_of`] does. Before it marks, it lets go of the ranges of root words that lead to no block.
///
/// Which blocks fit it hands on as it was told. So nothing that it finds depends on words that lead to no block, unless what
/// is left out of the root words does.
///
/// # Errors
///
/// `TooMany`, and `NoMemory` at any time.
pub fn search_from<R: std::thread::Threads + Sync, G: Gate + Sync>(
    workers: &Workers<'_, R, G>,
    alloc: Global,
    input: &Input,
    consistency: Consistency,
    rules: Rules,
) -> Result<Searched, FindError>
    requires skip { input.now.skip ≡ rules.skip }
    ensures marks { IfOk result (λ searched. OfLogs input.now (λ log lines.
        MarksOne input.now.image log lines (distances_of rules.reading) rules.skip
        workers.now.plan.workers searched)) }
    ensures fits { IfOk result (λ searched. searched.fits ≡ consistency.fits) }
    ensures signs { IfOk result (λ searched. searched.signs.items ≡ consistency.signs.items) }
    ensures refused { IfErr result (λ e. e ≢ FindError.NoMemory
        → OfLogs input.now (λ log lines. IsFaultOfOne input.now.image log e)) }
{
    let (head, indexed) = prepare_to_mark(&workers.team(alloc), input, rules.reading)?;
    let marked = mark_input(workers, alloc, input, &indexed)?;
    Ok(searched_of(alloc, input, &indexed.lookup, marked, head, consistency)?)
}
