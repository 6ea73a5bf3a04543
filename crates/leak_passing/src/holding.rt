//! A core and its log that were read in one pass are asked who holds the memory.

ghost use Rattle.std.specs.Prelude.{◌≢◌, ◌<◌, ℕ, List, [], ◌∷◌, IfOk, IfErr};
ghost use Rattle.leak_index.specs.Readings.{distances_of};
ghost use Rattle.leak_search.specs.declared.error.FindError.TheVariants.{NoMemory};
ghost use Rattle.leak_search.specs.declared.why.WhyError.TheVariants.{Find};
ghost use Rattle.leak_search.specs.Signs.{AreSigns};
ghost use Rattle.leak_holder_search.specs.Held.{FindsHeld, IsHeldFault};
ghost use Rattle.leak_holder_search.specs.Holders.{FindsHolders, IsFaultOfHolders};
ghost use Rattle.leak_holder_search.specs.Since.{earlier};
ghost use Rattle.leak_passing.specs.Holding.{IsListedOfPassed};
ghost use Rattle.leak_passing.specs.Passed.{IsPassed, OfPassed};

use crate::opening::input_of_passed;
use crate::passed::Passed;
use crate::pruning::without_core;
use leak_alike::{holders_of_sifted_cores, searches_of_sifted_cores};
use leak_blocks::Live;
use leak_holder_search::{
    Holding, ListedCore, Logs, Progress, find_listed_held, find_listed_holders, list_for_holders,
};
use leak_holders::{Question, Workers};
use leak_search::{FindError, Rules, WhyError};
use std::alloc::Global;
use std::thread::Threads;

/// What a question about holders needs of a core and its log that were read in one pass.
#[derive(Drop)]
struct ListedPassed {
    live: Live,
    core: ListedCore,
    /// The bytes of the log.
    log: Vec<u8>,
}

/// Lists what the words of a core lead to that was read in one pass with its log, by these rules, and lets go of the
/// core: most memory is taken while it is marked who holds what.
///
/// # Errors
///
/// Those of [`find_holders`](leak_holder_search::find_holders).
fn list_passed<R: Threads + Sync, P: Progress>(
    workers: &Workers<'_, R, P>,
    alloc: Global,
    passed: Passed,
    since: Option<&[u8]>,
    rules: Rules,
) -> Result<ListedPassed, FindError>
    requires passed { (core : List ℕ) × (log : List ℕ) × IsPassed core log rules.skip passed }
    requires some { 0 < workers.now.count }
    ensures listed { IfOk result (IsListedOfPassed rules passed (earlier since.entry)) }
    ensures refused { IfErr result (λ e. e ≢ FindError.NoMemory → OfPassed rules.skip passed
        (λ core log. IsFaultOfHolders core log (earlier since.entry) e)) }
{
    // (a law, for the proof: a sifted core has the refusals of the whole one)
    holders_of_sifted_cores();
    let Passed {
        held,
        words,
        len,
        log,
        read,
    } = passed;
    let input = input_of_passed(alloc, rules.skip, held.as_slice(), (&words, len), read)?;
    let logs = Logs {
        log: log.as_slice(),
        since,
    };
    let core = list_for_holders(workers, alloc, &input, &logs, rules)?;
    let live = without_core(input).live;
    Ok(ListedPassed { live, core, log })
}

/// Searches a core and its log that were read in one pass by these rules, and maybe an earlier log, and tells who
/// holds the memory. It gives what [`find_holders`](leak_holder_search::find_holders) gives for the whole core and the
/// logs.
///
/// # Errors
///
/// Those of [`find_holders`](leak_holder_search::find_holders).
pub fn find_passed_holders<R: Threads + Sync, P: Progress>(
    workers: &Workers<'_, R, P>,
    alloc: Global,
    passed: Passed,
    since: Option<&[u8]>,
    rules: Rules,
) -> Result<Holding, FindError>
    requires passed { (core : List ℕ) × (log : List ℕ) × IsPassed core log rules.skip passed }
    requires some { 0 < workers.now.count }
    ensures ok { IfOk result (λ found. OfPassed rules.skip passed (λ core log. FindsHolders
        core log (earlier since.entry) (distances_of rules.reading) rules.skip found)) }
    ensures signs { IfOk result (λ found. OfPassed rules.skip passed (λ core log.
        AreSigns rules.other_heap (core ∷ log ∷ []) found.signs.items)) }
    ensures refused { IfErr result (λ e. e ≢ FindError.NoMemory → OfPassed rules.skip passed
        (λ core log. IsFaultOfHolders core log (earlier since.entry) e)) }
{
    // (laws, for the proof: a sifted core has the answers of the whole one)
    holders_of_sifted_cores();
    searches_of_sifted_cores();
    let ListedPassed { live, core, log } = list_passed(workers, alloc, passed, since, rules)?;
    let logs = Logs {
        log: log.as_slice(),
        since,
    };
    Ok(find_listed_holders(workers, alloc, &live, core, &logs)?)
}

/// Searches a core and its log that were read in one pass by these rules, and maybe an earlier log, and answers a
/// question about chosen blocks. It gives what [`find_held`](leak_holder_search::find_held) gives for the whole core
/// and the logs.
///
/// # Errors
///
/// Those of [`find_held`](leak_holder_search::find_held).
pub fn find_passed_held<R: Threads + Sync, P: Progress>(
    workers: &Workers<'_, R, P>,
    alloc: Global,
    passed: Passed,
    since: Option<&[u8]>,
    question: Question,
    rules: Rules,
) -> Result<Holding, WhyError>
    requires passed { (core : List ℕ) × (log : List ℕ) × IsPassed core log rules.skip passed }
    requires some { 0 < workers.now.count }
    ensures ok { IfOk result (λ found. OfPassed rules.skip passed (λ core log. FindsHeld
        core log (earlier since.entry) (distances_of rules.reading) rules.skip question
        found)) }
    ensures signs { IfOk result (λ found. OfPassed rules.skip passed (λ core log.
        AreSigns rules.other_heap (core ∷ log ∷ []) found.signs.items)) }
    ensures refused { IfErr result (λ e. e ≢ Find NoMemory → OfPassed rules.skip passed
        (λ core log. IsHeldFault core log (earlier since.entry) question.address e)) }
{
    // (laws, for the proof: a sifted core has the answers of the whole one)
    holders_of_sifted_cores();
    searches_of_sifted_cores();
    let ListedPassed { live, core, log } = list_passed(workers, alloc, passed, since, rules)?;
    let logs = Logs {
        log: log.as_slice(),
        since,
    };
    find_listed_held(workers, alloc, &live, core, &logs, question)
}
