//! The search of one core over lists of what its words lead to, so that the words can be let go before it is marked.

ghost use Rattle.std.specs.Prelude.{◌≡◌, ◌≢◌, ◌↔◌, ◌<◌, ◌≤◌, ◌-◌, ◌^◌, Some, length, IfOk, IfErr, IfSome, IfNone, IsErrOf};
ghost use Rattle.leak_index.specs.Leads.{Distances};
ghost use Rattle.leak_index.specs.Readings.{distances_of};
ghost use Rattle.leak_pool.specs.Edges.{kept_count};
ghost use Rattle.leak_search.specs.Inputs.{IsFaultOfOne};
ghost use Rattle.leak_search.specs.Listed.{IsListedInput, IsOverIn, index_in, listers, share_in};
ghost use Rattle.leak_search.specs.Searched.{MarksOne, OfLogs};
ghost use Rattle.leak_search.specs.declared.inputs.Input.{Input};

use crate::listing_input::list_within;
use crate::reporting::searched_by;
use crate::{Consistency, FindError, Input, ListedInput, Searched, Workers};
use leak_index::Reading;
use leak_pool::{Gate, PoolError, heads_by_edges, mark_by_listing};
use leak_team::Team;
use std::alloc::{AllocError, Global};

/// Lists what the live blocks of an input lead to, and its root words. [`search_listed`] needs nothing else of the input's core.
/// None if the lists are over the input's room for edges.
///
/// # Errors
///
/// `TooMany`, and `NoMemory` at any time.
pub fn list_input<R: std::thread::Threads + Sync, G: Gate + Sync>(
    workers: &Workers<'_, R, G>,
    alloc: Global,
    input: &Input,
    reading: Reading,
) -> Result<Option<ListedInput>, FindError>
    ensures listed { IfOk result (λ listed. IfSome listed
        (IsListedInput input.now (distances_of reading))) }
    ensures room { IfOk result (λ listed. IfSome listed (λ l.
        kept_count l.listing.rows.items ≤ input.now.edges)) }
    ensures over { let number = listers input.now workers.now.plan.workers in
        let index = index_in input.now (distances_of reading) in
        IfOk result (λ listed. IfNone listed (IsOverIn input.now index number
        (share_in (Some input.now.edges) number))) }
    ensures refused { IfErr result (λ e. e ≢ FindError.NoMemory
        → OfLogs input.now (λ log lines. IsFaultOfOne input.now.image log e)) }
{
    let team = workers.team(alloc);
    let listed = list_within(&team, input, reading, Some(input.edges))?;
    Ok(listed)
}

/// Lists the same in whatever room that takes, by the team.
///
/// # Errors
///
/// `TooMany` if there are more than 2^32 - 1 live blocks. `NoMemory` if memory is refused, or if a worker's share of the blocks
/// leads to more than 2^32 - 1 blocks.
pub fn list_whole_input<R: std::thread::Threads + Sync>(
    team: &Team<'_, R>,
    input: &Input,
    reading: Reading,
) -> Result<ListedInput, PoolError>
    requires { 0 < team.now.workers }
    ensures listed { IfOk result (IsListedInput input.now (distances_of reading)) }
    ensures many { IsErrOf result PoolError.TooMany ↔ (2 ^ 32 - 1 < length input.now.live.blocks) }
{
    if input.live.blocks().len() > u32::MAX as usize {
        return Err(PoolError::TooMany);
    }
    match list_within(team, input, reading, None)? {
        Some(listed) => Ok(listed),
        None => Err(PoolError::NoMemory),
    }
}

/// Searches an input that was listed, as [`search_from`](crate::search_from) does with the input itself. It lets go of the
/// lists as soon as the heads are known.
pub fn search_listed<R: std::thread::Threads + Sync, G: Gate + Sync>(
    workers: &Workers<'_, R, G>,
    alloc: Global,
    listed: ListedInput,
    consistency: Consistency,
) -> Result<Searched, AllocError>
    ensures marks { (input : Input) (reading : Distances) → IsListedInput input reading listed
        → IfOk result (λ searched. OfLogs input (λ log lines.
        MarksOne input.image log lines reading input.skip workers.now.plan.workers searched)) }
    ensures fits { IfOk result (λ searched. searched.fits ≡ consistency.fits) }
    ensures signs { IfOk result (λ searched. searched.signs.items ≡ consistency.signs.items) }
{
    let ListedInput { head, listing } = listed;
    let marked = mark_by_listing(workers.rt, alloc, &listing, workers.plan, workers.gate)?;
    let heads = heads_by_edges(alloc, &listing, marked.set.as_slice())?;
    drop(listing);
    Ok(searched_by(marked, heads, head, consistency))
}
