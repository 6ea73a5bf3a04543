//! What each live block leads to is listed, before it is known what root words lead to.
ghost use Rattle.std.specs.Prelude.{◌≡◌, ◌↔◌, ◌<◌, ◌-◌, ◌^◌, ℕ, Option, length, IfOk, IfSome, IfNone, IsErrOf};
ghost use Rattle.leak_index.specs.Hits.{Index};
ghost use Rattle.leak_marks.specs.Lists.{Has};
ghost use Rattle.leak_roots.specs.Places.{Places};
ghost use Rattle.leak_pool.specs.Edges.{IsOver, row_size};
ghost use Rattle.leak_pool.specs.Listing.{AreFirstOf, AreListsOf, AreWithin, IsListingOf};
ghost use Rattle.leak_pool.specs.Scopes.{all_targets};

use crate::block_lists::BlockLists;
use crate::edges::row_size;
use crate::error::PoolError;
use crate::listing::Listing;
use crate::rows::list_rows;
use leak_blocks::Live;
use leak_elf::Words;
use leak_index::Lookup;
use leak_team::Team;
use std::thread::Threads;

impl BlockLists {
    /// The listing of these and of the blocks that root words lead to.
    pub fn with_first(self, first: Vec<u32>) -> Listing
        requires { (b : ℕ) → Has first.items b → b < self.blocks }
        ensures rows { result.rows ≡ self.rows }
        ensures value { (word_at : ℕ → Option ℕ) (index : Index) (places : Places)
            → AreListsOf word_at index self → AreFirstOf word_at index places first.items
            → IsListingOf word_at index places result }
    {
        Listing {
            first,
            blocks: self.blocks,
            size: self.size,
            rows: self.rows,
        }
    }
}

/// Lists what each live block leads to, by the team. None if the blocks of one worker lead to more than `share` blocks.
///
/// # Errors
///
/// `TooMany` if there are more than 2^32 - 1 live blocks. `NoMemory` if memory is refused.
pub fn list_blocks<R: Threads + Sync, W: Words + Sync, L: Lookup + Sync>(
    team: &Team<'_, R>,
    words: &W,
    lookup: &L,
    live: &Live,
    share: u32,
) -> Result<Option<BlockLists>, PoolError>
    requires some { 0 < team.now.workers }
    requires same_blocks { (L.index lookup.now).blocks ≡ live.now.blocks }
    ensures many { IsErrOf result PoolError.TooMany ↔ (2 ^ 32 - 1 < length live.now.blocks) }
    ensures value { IfOk result (λ lists. IfSome lists
        (AreListsOf (W.word_at words.now) (L.index lookup.now))) }
    ensures within { IfOk result (λ lists. IfSome lists (λ l.
        AreWithin (length live.now.blocks) team.now.workers share l.rows.items)) }
    ensures over { let targets = all_targets (W.word_at words.now) (L.index lookup.now) in
        let size = row_size (length live.now.blocks) team.now.workers in
        IfOk result (λ lists. IfNone lists (IsOver targets size share)) }
{
    let blocks = live.blocks();
    if blocks.len() > u32::MAX as usize {
        return Err(PoolError::TooMany);
    }
    let size = row_size(blocks.len(), team.workers);
    let Some(rows) = list_rows(team.rt, team.alloc, words, lookup, blocks, size, share)? else {
        return Ok(None);
    };
    Ok(Some(BlockLists {
        blocks: blocks.len() as u32,
        size,
        rows,
    }))
}
