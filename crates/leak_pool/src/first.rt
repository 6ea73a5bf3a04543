//! What the root words lead to, listed.
ghost use Rattle.std.specs.Prelude.{◌≡◌, ◌↔◌, ◌<◌, ◌-◌, ◌^◌, ℕ, length, IfOk, IsErrOf};
ghost use Rattle.leak_marks.specs.Lists.{Has, IsDistinct};
ghost use Rattle.leak_pool.specs.Marking.{led_by_roots};

use crate::alone::take_roots;
use crate::error::PoolError;
use leak_blocks::Live;
use leak_elf::Words;
use leak_index::Lookup;
use leak_roots::Roots;
use std::alloc::Global;

/// The blocks that the root words lead to, each once.
///
/// # Errors
///
/// `TooMany` if there are more than 2^32 - 1 live blocks. `NoMemory` if memory is refused.
pub fn first_blocks<W: Words, L: Lookup>(
    alloc: Global,
    words: &W,
    lookup: &L,
    roots: &Roots,
    live: &Live,
) -> Result<Vec<u32>, PoolError>
    requires same_blocks { (L.index lookup.now).blocks ≡ live.now.blocks }
    ensures many { IsErrOf result PoolError.TooMany ↔ (2 ^ 32 - 1 < length live.now.blocks) }
    ensures once { IfOk result (λ list. IsDistinct list.items) }
    ensures inside { IfOk result (λ list. (b : ℕ) → Has list.items b → b < length live.now.blocks) }
    ensures led { IfOk result (λ list. (b : ℕ) → Has list.items b
        ↔ Has (led_by_roots (W.word_at words.now) (L.index lookup.now) roots.now) b) }
{
    let blocks = live.blocks();
    if blocks.len() > u32::MAX as usize {
        return Err(PoolError::TooMany);
    }
    let mut set = vec![in alloc; false; blocks.len()]?;
    let mut list = Vec::new(alloc);
    let marks = set.as_mut_slice();
    take_roots(words, lookup, roots, live, marks, &mut list)?;
    Ok(list)
}
