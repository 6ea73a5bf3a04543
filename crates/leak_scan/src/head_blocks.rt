//! The leaked blocks that no other leaked block holds.
ghost use Rattle.std.specs.Prelude.{◌≡◌, ℕ, ◌<◌, length, map, not, false, slice_index_or, IfOk};
ghost use Rattle.std.specs.List.{AllByRecursion};
ghost use Rattle.leak_scan.specs.Heads.{heads_of};
ghost use Rattle.leak_scan.specs.Dropped.{after_blocks, after_targets};

use crate::laws::targets_are_blocks;
use crate::targets::Targets;
use leak_blocks::{Block, Live};
use leak_elf::Words;
use leak_index::Lookup;
use std::alloc::{AllocError, Global};

/// For each block, whether it is a head: the set leaves it out, and no word of another block that the set leaves out
/// leads to it.
///
/// It goes once over the words of the blocks outside the set, and over no others.
pub fn heads<W: Words, L: Lookup>(
    alloc: Global,
    words: &W,
    lookup: &L,
    live: &Live,
    set: &[bool],
) -> Result<Vec<bool>, AllocError>
    requires one_each { length set.now ≡ length live.now.blocks }
    requires same_blocks { (L.index lookup.now).blocks ≡ live.now.blocks }
    ensures { IfOk result (λ heads.
        heads.items ≡ heads_of (W.word_at words.now) (L.index lookup.now) set.now) }
{
    let mut heads = leaked(alloc, set)?;
    drop_held(words, lookup, live.blocks(), set, heads.as_mut_slice());
    Ok(heads)
}

/// For each block, whether the set leaves it out.
pub fn leaked(alloc: Global, set: &[bool]) -> Result<Vec<bool>, AllocError>
    ensures { IfOk result (λ leaked. leaked.items ≡ map not set.now) }
{
    // Not collected: that could go on after its first request for room was refused.
    let mut leaked = Vec::with_capacity(alloc, set.len())?;
    for marked in set {
        leaked.push(!*marked)?;
    }
    Ok(leaked)
}

/// Drops from the heads what the blocks outside the set hold.
fn drop_held<W: Words, L: Lookup>(
    words: &W,
    lookup: &L,
    blocks: &[Block],
    set: &[bool],
    heads: &mut [bool],
)
    requires one_each { length set.now ≡ length blocks.now }
    requires entries { length heads.old ≡ length blocks.now }
    requires same_blocks { (L.index lookup.now).blocks ≡ blocks.now }
    ensures { let index = L.index lookup.now in
        (b : ℕ) → slice_index_or heads.new b false
        ≡ after_blocks (W.word_at words.now) index set.now heads.old 0 blocks.now b }
{
    // (a law, for the proof: each target is the number of a block)
    targets_are_blocks();
    for (i, block) in blocks.iter().enumerate() {
        if !set[i] {
            drop_targets(Targets::of_block(words, lookup, block), i, heads);
        }
    }
}

/// Drops the targets of a block from the heads, except the block itself.
fn drop_targets<W: Words, L: Lookup>(targets: Targets<'_, W, L>, own: usize, heads: &mut [bool])
    requires inside { AllByRecursion (λ b. b < length heads.old) targets }
    ensures { (b : ℕ) →
        slice_index_or heads.new b false ≡ after_targets heads.old own targets.entry b }
{
    for target in targets {
        if target != own {
            heads[target] = false;
        }
    }
}
