//! The search of one core on the caller's thread.

ghost use Rattle.std.specs.Prelude.{◌≢◌, [], ◌∷◌, IfOk, IfErr};
ghost use Rattle.leak_index.specs.Readings.{distances_of};
ghost use Rattle.leak_search.specs.Inputs.{IsFaultOfOne};
ghost use Rattle.leak_search.specs.Search.{FindsOne};
ghost use Rattle.leak_search.specs.Signs.{AreSigns};

use crate::{
    FindError, Found, Rules, consistency_of_one, find_roots, found_of, head_of, read_input,
    searched_of,
};
use leak_index::Sorted;
use leak_pool::mark_alone;
use leak_report::CallerTexts;
use std::alloc::Global;

/// Searches a core and its log by the rules on the caller's thread, with one list of claims.
///
/// `lists_misfits` says whether the report lists the misfits. It gives what [`find_one`](crate::find_one) gives with one
/// worker, and refuses what that refuses, in the same order. It is for libraries and tests.
pub fn find_alone<'a>(
    alloc: Global,
    core: &'a [u8],
    log: &'a [u8],
    rules: Rules,
    lists_misfits: bool,
) -> Result<Found, FindError>
    ensures ok { IfOk result
        (FindsOne core.now log.now (distances_of rules.reading) rules.skip lists_misfits 1) }
    ensures signs { IfOk result (λ found.
        AreSigns rules.other_heap (core.now ∷ log.now ∷ []) found.signs.items) }
    ensures refused { IfErr result (λ e. e ≢ FindError.NoMemory
        → IsFaultOfOne core.now log.now e) }
{
    let input = read_input(alloc, 1, rules.skip, core, log)?;
    let consistency = consistency_of_one(alloc, &input, lists_misfits, rules.other_heap)?;
    let roots = find_roots(alloc, &input)?;
    let lookup = Sorted::new(&input.live, rules.reading);
    let marked = mark_alone(alloc, &input.image, &lookup, &roots, &input.live)?;
    let head = head_of(&input, &roots, None);
    let searched = searched_of(alloc, &input, &lookup, marked, head, consistency)?;
    found_of(alloc, &input.live, searched, CallerTexts::OfLog(log))
}
