//! Marking on the caller's thread.
ghost use Rattle.std.specs.Prelude.{◌≡◌, ◌↔◌, ℕ, ◌+◌, ◌<◌, ◌≤◌, ◌-◌, ◌^◌, List, [], ◌∷◌, IfOk, IsErrOf, length};
ghost use Rattle.leak_marks.specs.Lists.{Has, Within};
ghost use Rattle.leak_pool.specs.Alone.{AreMarks, AreTaken, IsFollowed};
ghost use Rattle.leak_pool.specs.Depth.{AreByDepth};
ghost use Rattle.leak_pool.specs.Marking.{MarksFromRoots, graph_of, graph_of_roots, led_by_roots};

use crate::error::PoolError;
use crate::marked::Marked;
use crate::scope::of_memory;
use leak_blocks::{Block, Live};
use leak_elf::Words;
use leak_index::Lookup;
use leak_roots::Roots;
use leak_scan::Targets;
use std::alloc::{AllocError, Global};

/// Marks what the roots lead to, on the caller's thread. There is one list of claims. It is for libraries and tests: the
/// program marks by [`mark_by_edges`](crate::mark_by_edges).
pub fn mark_alone<W: Words, L: Lookup>(
    alloc: Global,
    words: &W,
    lookup: &L,
    roots: &Roots,
    live: &Live,
) -> Result<Marked, PoolError>
    requires { (L.index lookup.now).blocks ≡ live.now.blocks }
    ensures many { IsErrOf result PoolError.TooMany ↔ (2 ^ 32 - 1 < length live.now.blocks) }
    ensures marks { IfOk result (MarksFromRoots (W.word_at words.now) (L.index lookup.now) roots.now 1) }
    ensures depth { let g = graph_of_roots (W.word_at words.now) (L.index lookup.now) roots.now in
        IfOk result (λ m. 0 < length live.now.blocks → AreByDepth g m.rounds) }
{
    let blocks = live.blocks();
    if blocks.len() > u32::MAX as usize {
        return Err(PoolError::TooMany);
    }
    let mut set = vec![in alloc; false; blocks.len()]?;
    let mut list = Vec::new(alloc);
    let marks = set.as_mut_slice();
    take_roots(words, lookup, roots, live, marks, &mut list)?;
    let rounds = take_blocks(words, lookup, blocks, marks, &mut list)?;
    let rounds = if blocks.is_empty() { 0 } else { rounds };
    let claims = vec![in alloc; list]?;
    Ok(Marked {
        set,
        claims,
        rounds,
    })
}

// Claims what the roots lead to.
pub(crate) fn take_roots<W: Words, L: Lookup>(
    words: &W,
    lookup: &L,
    roots: &Roots,
    live: &Live,
    set: &mut [bool],
    list: &mut Vec<u32>,
) -> Result<(), AllocError>
    requires same_blocks { (L.index lookup.now).blocks ≡ live.now.blocks }
    requires blocks { length set.old ≡ length (L.index lookup.now).blocks }
    requires few { length set.old < 2 ^ 32 }
    requires marks { AreMarks set.old list.old.items }
    ensures marks { AreMarks set.new list.new.items }
    ensures done { IfOk result (λ _.
        AreTaken (led_by_roots (W.word_at words.now) (L.index lookup.now) roots.now)
        list.old.items list.new.items) }
{
    let targets = Targets::of_registers(words, roots.registers(), lookup);
    take_all(targets, set, list)?;
    for range in roots.memory() {
        take_all(of_memory(words, lookup, live, roots, *range), set, list)?;
    }
    Ok(())
}

// Claims what the listed blocks lead to, and what those claimed then lead to, and says how many rounds that made with
// the one before. A round ends with the last of the blocks that were listed as it began.
fn take_blocks<W: Words, L: Lookup>(
    words: &W,
    lookup: &L,
    blocks: &[Block],
    set: &mut [bool],
    list: &mut Vec<u32>,
) -> Result<u64, AllocError>
    requires blocks { (L.index lookup.now).blocks ≡ blocks.now }
    requires long { length set.old ≡ length blocks.now }
    requires few { length set.old < 2 ^ 32 }
    requires marks { AreMarks set.old list.old.items }
    ensures marks { AreMarks set.new list.new.items }
    ensures rounds { IfOk result (λ rounds. rounds ≤ length blocks.now + 1) }
    ensures done { IfOk result (λ _. (first : List ℕ)
        → IsFollowed (graph_of (W.word_at words.now) (L.index lookup.now) first []) list.old.items 0
        → IsFollowed (graph_of (W.word_at words.now) (L.index lookup.now) first [])
        list.new.items (length list.new.items)) }
    ensures depth { IfOk result (λ rounds. (first : List ℕ)
        → IsFollowed (graph_of (W.word_at words.now) (L.index lookup.now) first []) list.old.items 0
        → Within list.old.items first
        → AreByDepth (graph_of (W.word_at words.now) (L.index lookup.now) first []) rounds) }
{
    let mut rounds = 1;
    let mut end = 0;
    let mut scanned = 0;
    'follow: while scanned < list.len() {
        if scanned == end {
            rounds += 1;
            end = list.len();
        }
        let block = &blocks[list[scanned] as usize];
        take_all(Targets::of_block(words, lookup, block), set, list)?;
        scanned += 1;
    }
    Ok(rounds)
}

// Claims the targets that are not marked.
fn take_all<W: Words, L: Lookup>(
    targets: Targets<'_, W, L>,
    set: &mut [bool],
    list: &mut Vec<u32>,
) -> Result<(), AllocError>
    requires inside { (b : ℕ) → Has targets b → b < length set.old }
    requires few { length set.old < 2 ^ 32 }
    requires marks { AreMarks set.old list.old.items }
    ensures marks { AreMarks set.new list.new.items }
    ensures done { IfOk result (λ _. AreTaken targets.entry list.old.items list.new.items) }
{
    for block in targets {
        take(set, list, block as u32)?;
    }
    Ok(())
}

// Claims a block, unless it is marked already.
fn take(set: &mut [bool], list: &mut Vec<u32>, block: u32) -> Result<(), AllocError>
    requires block { block < length set.old }
    requires marks { AreMarks set.old list.old.items }
    ensures marks { AreMarks set.new list.new.items }
    ensures done { IfOk result (λ _. AreTaken (block ∷ []) list.old.items list.new.items) }
{
    if set[block as usize] {
        return Ok(());
    }
    list.push(block)?;
    set[block as usize] = true;
    Ok(())
}
