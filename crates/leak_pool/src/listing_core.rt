//! A core's memory is listed under a log.
ghost use Rattle.std.specs.Prelude.{◌≡◌, ◌↔◌, ◌<◌, ◌-◌, ◌^◌, length, IfOk, IfSome, IfNone, IsErrOf};
ghost use Rattle.leak_pool.specs.Edges.{IsOver, row_size};
ghost use Rattle.leak_pool.specs.Listing.{AreWithin, IsListingOf};
ghost use Rattle.leak_pool.specs.Scopes.{all_targets};

use crate::error::PoolError;
use crate::first::first_blocks;
use crate::listing::Listing;
use crate::listing_blocks::list_blocks;
use leak_blocks::Live;
use leak_elf::Words;
use leak_index::Lookup;
use leak_roots::Roots;
use leak_team::Team;
use std::thread::Threads;

/// Lists what the root words lead to, and then, by the team, what each live block leads to. None if the blocks of one worker lead
/// to more than `share` blocks.
///
/// # Errors
///
/// `TooMany` if there are more than 2^32 - 1 live blocks. `NoMemory` if memory is refused.
pub fn list_core<R: Threads + Sync, W: Words + Sync, L: Lookup + Sync>(
    team: &Team<'_, R>,
    words: &W,
    lookup: &L,
    roots: &Roots,
    live: &Live,
    share: u32,
) -> Result<Option<Listing>, PoolError>
    requires some { 0 < team.now.workers }
    requires same_blocks { (L.index lookup.now).blocks ≡ live.now.blocks }
    ensures many { IsErrOf result PoolError.TooMany ↔ (2 ^ 32 - 1 < length live.now.blocks) }
    ensures value { IfOk result (λ listing. IfSome listing
        (IsListingOf (W.word_at words.now) (L.index lookup.now) roots.now)) }
    ensures within { IfOk result (λ listing. IfSome listing (λ l.
        AreWithin (length live.now.blocks) team.now.workers share l.rows.items)) }
    ensures over { let targets = all_targets (W.word_at words.now) (L.index lookup.now) in
        let size = row_size (length live.now.blocks) team.now.workers in
        IfOk result (λ listing. IfNone listing (IsOver targets size share)) }
{
    let first = first_blocks(team.alloc, words, lookup, roots, live)?;
    let Some(lists) = list_blocks(team, words, lookup, live, share)? else {
        return Ok(None);
    };
    Ok(Some(lists.with_first(first)))
}
