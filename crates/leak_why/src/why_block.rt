//! Why a block is held.
ghost use Rattle.std.specs.Prelude.{◌≡◌, ◌↔◌, ◌<◌, length, IfOk, IsSome};
ghost use Rattle.leak_marks.specs.Reach.{Reach};
ghost use Rattle.leak_why.specs.Chains.{IsWhy, search_graph};

use crate::chain::Chain;
use crate::reached_block::number_of;
use crate::spreading::spread;
use crate::tracing::{root_of, trace};
use leak_blocks::Live;
use leak_elf::Words;
use leak_index::Lookup;
use leak_roots::Roots;
use std::alloc::{AllocError, Global};

/// A shortest chain of words from the roots to the block with the number. None if no chain leads to it: the block is
/// leaked. If the roots leave out malloc's links to free chunks, a root word in memory that is such a link as far as a
/// block goes begins no chain at that block.
///
/// It goes once over the root words and the words of all blocks that chains reach, and then again over the words of the
/// chain's blocks, and of one range of the roots, up to those of the chain.
pub fn why<W: Words, L: Lookup>(
    alloc: Global,
    words: &W,
    lookup: &L,
    roots: &Roots,
    live: &Live,
    block: usize,
) -> Result<Option<Chain>, AllocError>
    requires { (L.index lookup.now).blocks ≡ live.now.blocks }
    ensures why { IfOk result
        (IsWhy (W.word_at words.now) (L.index lookup.now) roots.now block) }
    ensures reach { let g = search_graph (W.word_at words.now) (L.index lookup.now) roots.now in
        IfOk result (λ chain. IsSome chain ↔ Reach g block) }
{
    let blocks = live.blocks();
    let entries = spread(alloc, words, lookup, roots, live)?;
    let Some(last) = number_of(entries.as_slice(), block) else {
        return Ok(None);
    };
    let mut links = Vec::new(alloc);
    let (origin, first) = trace(words, lookup, blocks, &entries, last, &mut links)?;
    let root = root_of(words, lookup, live, roots, origin, first);
    Ok(Some(Chain { links, root }))
}
