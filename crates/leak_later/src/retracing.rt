//! Marking again in a later core from what was marked in an earlier one.
ghost use Rattle.std.specs.Prelude.{◌≡◌, ◌↔◌, ◌<◌, ◌-◌, ◌^◌, ◌++◌, length, map, IfOk, OnOk, IsErrOf, IsPermutation};
ghost use Rattle.leak_later.specs.Kept.{IsCarry};
ghost use Rattle.leak_later.specs.Retrace.{IsRetrace};

use crate::kept::Carry;
use crate::rereading::count_words;
use leak_blocks::Live;
use leak_elf::Words;
use leak_index::Lookup;
use leak_marks::laws::retraces;
use leak_pool::{Gate, Marked, Part, Plan, PoolError, Start, mark_from};
use leak_roots::Roots;
use leak_scan::Pages;
use std::alloc::{AllocError, Global};
use std::thread::Threads;

/// What marking again came to.
#[derive(Drop)]
pub struct Retraced {
    /// The marked blocks, and who claimed those that are neither kept nor fresh.
    pub marked: Marked,
    /// How many words of kept blocks are on the pages that differ, changed or not.
    pub reread: u64,
}

/// The kept blocks and the fresh ones, by ascending number.
fn marked_by(alloc: Global, carry: &Carry) -> Result<Vec<u32>, AllocError>
    ensures { IfOk result (λ v.
        IsPermutation (carry.now.kept.items ++ carry.now.fresh.items) v.items) }
{
    let mut marked = Vec::with_capacity(alloc, carry.kept.len())?;
    marked.extend_from_slice(&carry.kept)?;
    marked.extend_from_slice(&carry.fresh)?;
    marked.sort_unstable();
    Ok(marked)
}

/// Adds the part of each of the blocks.
fn push_parts(parts: &mut Vec<(u32, Part)>, blocks: &[u32], part: Part) -> Result<(), AllocError>
    ensures { OnOk result (parts.new.items ≡ parts.old.items ++ map (λ b. (b, part)) blocks.now) }
{
    for block in blocks {
        parts.push((*block, part))?;
    }
    Ok(())
}

/// The state to mark from: kept and fresh blocks are marked. Of the kept ones only the differing pages are scanned
/// again, since their other words lead to no block outside the start; of the fresh ones all words are scanned.
fn start_of(alloc: Global, carry: &Carry) -> Result<Start, AllocError>
    ensures marked { IfOk result (λ s.
        IsPermutation (carry.now.kept.items ++ carry.now.fresh.items) s.marked.items) }
    ensures rescan { IfOk result (λ s.
        s.rescan.items ≡ map (λ b. (b, Part.Differing)) carry.now.kept.items
        ++ map (λ b. (b, Part.Whole)) carry.now.fresh.items) }
{
    let marked = marked_by(alloc, carry)?;
    let mut rescan = Vec::new(alloc);
    push_parts(&mut rescan, &carry.kept, Part::Differing)?;
    push_parts(&mut rescan, &carry.fresh, Part::Whole)?;
    Ok(Start { marked, rescan })
}

/// Marks in the later core from its kept and fresh blocks. The pages are those that differ.
///
/// Boehm, Demers and Shenker, PLDI 1991: what was marked is scanned again only where it was written since. Words of
/// kept blocks on other pages are not read.
pub fn retrace<R: Threads + Sync, W: Words + Sync, L: Lookup + Sync, G: Gate + Sync>(
    rt: &R,
    alloc: Global,
    second: &W,
    lookup: &L,
    roots: &Roots,
    live: &Live,
    carry: &Carry,
    pages: &Pages,
    plan: Plan,
    gate: &G,
) -> Result<Retraced, PoolError>
    requires blocks { (L.index lookup.now).blocks ≡ live.now.blocks }
    requires carried { IsCarry (length live.now.blocks) carry.now }
    ensures many { IsErrOf result PoolError.TooMany ↔ (2 ^ 32 - 1 < length live.now.blocks) }
    ensures traced { IfOk result (IsRetrace (W.word_at second.now) (L.index lookup.now)
        roots.now pages.now carry.now plan.workers) }
{
    if live.blocks().len() > u32::MAX as usize {
        return Err(PoolError::TooMany);
    }
    // (a law, for the proof: what is marked from kept and new blocks comes to what is marked of all)
    retraces();
    let start = start_of(alloc, carry)?;
    let marked = mark_from(
        rt, alloc, second, lookup, roots, live, plan, gate, &start, pages,
    )?;
    let reread = count_words(second, live.blocks(), &carry.kept, pages);
    Ok(Retraced { marked, reread })
}
