//! What the words of an input lead to, listed once: all questions about it are marked over these lists.

ghost use Rattle.std.specs.Prelude.{◌≡◌, ◌≢◌, ◌<◌, [], ◌∷◌, IfOk, IfErr, IsTrue};
ghost use Rattle.leak_index.specs.Readings.{distances_of};
ghost use Rattle.leak_search.specs.Inputs.{IsRead};
ghost use Rattle.leak_search.specs.Listed.{IsListedInput};
ghost use Rattle.leak_search.specs.Signs.{signs_with};
ghost use Rattle.leak_holder_search.specs.Holders.{IsFaultOfHolders};
ghost use Rattle.leak_holder_search.specs.Since.{earlier, is_continued_from};

use crate::logs::Logs;
use crate::since::is_continued;
use leak_holders::{Progress, Workers};
use leak_report::Signs;
use leak_search::{FindError, Input, ListedInput, Rules, consistency_of_one_by, list_whole_input};
use leak_team::Team;
use std::alloc::Global;
use std::thread::Threads;

/// What a question needs to know of a core.
#[derive(Drop)]
pub struct ListedCore {
    /// What the words of the core lead to.
    pub listed: ListedInput,
    /// What is odd about the core and its log.
    pub signs: Vec<Signs>,
}

/// The team of these workers, which takes this memory.
fn team_of<'a, R: Threads + Sync, P: Progress>(
    workers: &Workers<'a, R, P>,
    alloc: Global,
) -> Team<'a, R>
    ensures { result.workers ≡ workers.now.count }
{
    Team {
        rt: workers.rt,
        alloc,
        workers: workers.count,
    }
}

/// Tells what is odd about an input, and lists what its words lead to, by the rules. Of the input's core nothing else is
/// needed by [`find_listed_holders`](crate::find_listed_holders) or [`find_listed_held`](crate::find_listed_held). The log is
/// that of which the input was read.
///
/// # Errors
///
/// `NotPrefix`, `TooMany`, in this order, and `NoMemory` at any time.
pub fn list_for_holders<R: Threads + Sync, P: Progress>(
    workers: &Workers<'_, R, P>,
    alloc: Global,
    input: &Input,
    logs: &Logs,
    rules: Rules,
) -> Result<ListedCore, FindError>
    requires read { IsRead input.now.image logs.now.log.now input.now }
    requires some { 0 < workers.now.count }
    ensures continued { IfOk result (λ _.
        IsTrue (is_continued_from (earlier logs.now.since) logs.now.log.now)) }
    ensures listed { IfOk result (λ core.
        IsListedInput input.now (distances_of rules.reading) core.listed) }
    ensures signs { IfOk result (λ core.
        core.signs.items ≡ signs_with rules.other_heap input.now ∷ []) }
    ensures refused { IfErr result (λ e. e ≢ FindError.NoMemory
        → IsFaultOfHolders input.now.image logs.now.log.now (earlier logs.now.since) e) }
{
    if !is_continued(logs) {
        return Err(FindError::NotPrefix);
    }
    let team = team_of(workers, alloc);
    let signs = consistency_of_one_by(&team, input, false, rules.other_heap)?.signs;
    let listed = list_whole_input(&team, input, rules.reading)?;
    Ok(ListedCore { listed, signs })
}
