//! The leaked blocks that no other leaked block holds, over lists of what blocks lead to.
ghost use Rattle.std.specs.Prelude.{◌≡◌, ℕ, ◌<◌, Option, length, map, not, false, slice_index_or, IfOk};
ghost use Rattle.leak_marks.specs.Lists.{Has};
ghost use Rattle.leak_index.specs.Hits.{Index};
ghost use Rattle.leak_scan.specs.Heads.{heads_of};
ghost use Rattle.leak_scan.specs.Dropped.{after_blocks, after_targets};
ghost use Rattle.leak_pool.specs.Scopes.{all_targets};

use leak_scan::leaked;
use leak_without::HasEdges;
use std::alloc::{AllocError, Global};

/// For each block, whether it is a head: the set leaves it out, and no other block that the set leaves out leads to it. It gives what
/// [`heads`](leak_scan::heads) gives for the memory that was listed.
///
/// It goes once over the targets of the blocks outside the set, and over no others. It fails only if memory is refused.
pub fn heads_by_edges<E: HasEdges>(
    alloc: Global,
    edges: &E,
    set: &[bool],
) -> Result<Vec<bool>, AllocError>
    requires one_each { length set.now ≡ length (E.targets edges.now) }
    ensures { (word_at : ℕ → Option ℕ) (index : Index)
        → E.targets edges.now ≡ all_targets word_at index
        → IfOk result (λ heads. heads.items ≡ heads_of word_at index set.now) }
{
    let mut heads = leaked(alloc, set)?;
    drop_held(edges, set, heads.as_mut_slice());
    Ok(heads)
}

/// Drops from the heads what the blocks outside the set lead to.
fn drop_held<E: HasEdges>(edges: &E, set: &[bool], heads: &mut [bool])
    requires one_each { length set.now ≡ length (E.targets edges.now) }
    requires entries { length heads.old ≡ length (E.targets edges.now) }
    ensures { (word_at : ℕ → Option ℕ) (index : Index)
        → E.targets edges.now ≡ all_targets word_at index
        → (b : ℕ) → slice_index_or heads.new b false
        ≡ after_blocks word_at index set.now heads.old 0 index.blocks b }
{
    for block in 0..edges.blocks() {
        if !set[block as usize] {
            drop_targets(edges.targets(block), block, heads);
        }
    }
}

/// Drops the targets of a block from the heads, except the block itself.
fn drop_targets(targets: &[u32], own: u32, heads: &mut [bool])
    requires inside { (b : ℕ) → Has targets.now b → b < length heads.old }
    ensures { (b : ℕ) →
        slice_index_or heads.new b false ≡ after_targets heads.old own targets.now b }
{
    for target in targets {
        if *target != own {
            heads[*target as usize] = false;
        }
    }
}
