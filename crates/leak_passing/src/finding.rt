//! A core and its log that were read in one pass are searched.

ghost use Rattle.std.specs.Prelude.{◌≡◌, ◌≢◌, ℕ, Bool, List, [], ◌∷◌, IfOk, IfErr};
ghost use Rattle.leak_index.specs.Readings.{distances_of};
ghost use Rattle.leak_search.specs.Inputs.{IsFaultOfOne};
ghost use Rattle.leak_search.specs.Search.{FindsOne};
ghost use Rattle.leak_search.specs.Signs.{AreSigns};
ghost use Rattle.leak_search.specs.declared.rules.Rules.{Rules};
ghost use Rattle.leak_passing.specs.Left.{IsLeftOf, IsListedOf, OfLeft, OfListed};
ghost use Rattle.leak_passing.specs.Passed.{IsPassedByTexts, OfPassedByTexts};
ghost use Rattle.leak_passing.specs.Prepared.{IsPrepared, OfPrepared};

use crate::opening::input_of_passed;
use crate::passed::PassedByTexts;
use crate::pruning::{Left, input_to_mark, left_to_mark, without_core};
use crate::reporting::found_by_texts;
use leak_alike::{files_of_one_head, pruned_cores_are_marked_alike, searches_of_sifted_cores};
use leak_blocks::Live;
use leak_pool::Gate;
use leak_replaying::KeptTexts;
use leak_search::{
    Consistency, FindError, Found, Input, ListedInput, Rules, Workers, consistency_of_one_by,
    list_input, search_from, search_listed,
};
use std::alloc::Global;

/// Searches an input by the rules and by the workers once it is known which blocks fit, without its log, of which the
/// texts of callers were kept.
fn find_kept<R: std::thread::Threads + Sync, G: Gate + Sync>(
    workers: &Workers<'_, R, G>,
    alloc: Global,
    input: Input,
    consistency: Consistency,
    kept: KeptTexts,
    rules: Rules,
) -> Result<Found, FindError>
    requires prepared { (check : Bool) × (core : List ℕ) × (log : List ℕ)
        × IsPrepared core log check rules input consistency kept }
    requires skip { input.skip ≡ rules.skip }
    ensures ok { IfOk result (λ found. (check : Bool)
        → OfPrepared check rules input.entry consistency kept (λ core log.
        FindsOne core log (distances_of rules.reading) rules.skip check
        workers.now.plan.workers found)) }
    ensures signs { IfOk result (λ found.
        found.signs.items ≡ consistency.signs.items) }
    ensures refused { IfErr result (λ e. e ≢ FindError.NoMemory → (check : Bool)
        → OfPrepared check rules input.entry consistency kept (λ core log. IsFaultOfOne core log e)) }
{
    let searched = search_from(workers, alloc, &input, consistency, rules)?;
    found_by_texts(alloc, input.live, searched, kept)
}

/// Searches an input that was listed, of which only the live blocks and the texts of their callers are left.
fn find_listed<R: std::thread::Threads + Sync, G: Gate + Sync>(
    workers: &Workers<'_, R, G>,
    alloc: Global,
    live: Live,
    listed: ListedInput,
    consistency: Consistency,
    kept: KeptTexts,
) -> Result<Found, FindError>
    requires { (rules : Rules) × (check : Bool) × (core : List ℕ) × (log : List ℕ)
        × IsListedOf core log check rules live listed consistency kept }
    ensures ok { IfOk result (λ found. (rules : Rules) (check : Bool)
        → OfListed check rules live listed consistency kept (λ core log.
        FindsOne core log (distances_of rules.reading) rules.skip check
        workers.now.plan.workers found)) }
    ensures signs { IfOk result (λ found.
        found.signs.items ≡ consistency.signs.items) }
    ensures memory { IfErr result (λ e. e ≡ FindError.NoMemory) }
{
    let searched = search_listed(workers, alloc, listed, consistency)?;
    found_by_texts(alloc, live, searched, kept)
}

/// Searches what is left of a core and its log. It lists what the words lead to, and lets go of them before it marks: most memory
/// is taken while it marks. If the lists are over the room for edges, it marks over the words.
fn find_left<R: std::thread::Threads + Sync, G: Gate + Sync>(
    workers: &Workers<'_, R, G>,
    alloc: Global,
    left: Left,
    consistency: Consistency,
    kept: KeptTexts,
    rules: Rules,
) -> Result<Found, FindError>
    requires left { (check : Bool) × (core : List ℕ) × (log : List ℕ)
        × IsLeftOf core log check rules left consistency kept }
    requires skip { left.others.skip ≡ rules.skip }
    ensures ok { IfOk result (λ found. (check : Bool)
        → OfLeft check rules left consistency kept (λ core log.
        FindsOne core log (distances_of rules.reading) rules.skip check
        workers.now.plan.workers found)) }
    ensures signs { IfOk result (λ found.
        found.signs.items ≡ consistency.signs.items) }
    ensures refused { IfErr result (λ e. e ≢ FindError.NoMemory → (check : Bool)
        → OfLeft check rules left consistency kept (λ core log. IsFaultOfOne core log e)) }
{
    let Left {
        held,
        words,
        len,
        others,
    } = left;
    let input = input_to_mark(alloc, held.as_slice(), (&words, len), others)?;
    let Some(listed) = list_input(workers, alloc, &input, rules.reading)? else {
        return find_kept(workers, alloc, input, consistency, kept, rules);
    };
    let live = without_core(input).live;
    drop(words);
    drop(held);
    find_listed(workers, alloc, live, listed, consistency, kept)
}

/// Searches a core and its log that were read in one pass by these rules. It gives what
/// [`find_one`](leak_search::find_one) gives for the whole core and the log.
///
/// Once it is known which blocks fit, it lets go of the words that only tell of that, if no other rule asks for words; and once
/// it is listed what the others lead to, of all.
///
/// # Errors
///
/// Those of [`find_one`](leak_search::find_one).
pub fn find_passed<R: std::thread::Threads + Sync, G: Gate + Sync>(
    workers: &Workers<'_, R, G>,
    alloc: Global,
    passed: PassedByTexts,
    rules: Rules,
    lists_misfits: bool,
) -> Result<Found, FindError>
    requires { (core : List ℕ) × (log : List ℕ) × IsPassedByTexts core log rules.skip passed }
    ensures ok { IfOk result (λ found. OfPassedByTexts rules.skip passed (λ core log.
        FindsOne core log (distances_of rules.reading) rules.skip lists_misfits
        workers.now.plan.workers found)) }
    ensures signs { IfOk result (λ found. OfPassedByTexts rules.skip passed (λ core log.
        AreSigns rules.other_heap (core ∷ log ∷ []) found.signs.items)) }
    ensures refused { IfErr result (λ e. e ≢ FindError.NoMemory
        → OfPassedByTexts rules.skip passed (λ core log. IsFaultOfOne core log e)) }
{
    // (laws, for the proof: a sifted core has the answers of the whole one, and marking needs no more than what is left)
    searches_of_sifted_cores();
    pruned_cores_are_marked_alike();
    files_of_one_head();
    let PassedByTexts {
        held,
        words,
        len,
        texts,
        read,
    } = passed;
    let whole = input_of_passed(alloc, rules.skip, held.as_slice(), (&words, len), read)?;
    let team = workers.team(alloc);
    let consistency = consistency_of_one_by(&team, &whole, lists_misfits, rules.other_heap)?;
    let others = without_core(whole);
    let left = Left {
        words: left_to_mark(words, &others.live, rules.skip),
        held,
        len,
        others,
    };
    find_left(workers, alloc, left, consistency, texts, rules)
}
