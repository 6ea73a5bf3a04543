//! From an input to its marked blocks, by workers.

ghost use Rattle.std.specs.Prelude.{◌≡◌, ◌↔◌, ◌<◌, ◌-◌, ◌^◌, List, [], IfOk, IsErrOf, length};
ghost use Rattle.leak_mtrace.specs.declared.line.Line.{Line};
ghost use Rattle.leak_elf.specs.Words.{word_of};
ghost use Rattle.leak_index.specs.Readings.{distances_of};
ghost use Rattle.leak_pool.specs.Course.{IsByRounds};
ghost use Rattle.leak_pool.specs.Marking.{MarksFromRoots};
ghost use Rattle.leak_search.specs.Inputs.{AreRootsFor, IsInput};

use crate::inputs::{Input, find_roots};
use leak_index::{Paged, Reading};
use leak_pool::{Gate, Marked, Plan, PoolError, mark_by_edges};
use leak_roots::Roots;
use leak_team::Team;
use std::alloc::{AllocError, Global};
use std::thread::Threads;

/// The threads of a search, and how they share its work.
#[derive(Drop)]
pub struct Workers<'a, R: Threads + Sync, G: Gate + Sync> {
    pub rt: &'a R,
    pub plan: Plan,
    pub gate: &'a G,
}

impl<'a, R: Threads + Sync, G: Gate + Sync> Workers<'a, R, G> {
    /// The team of these workers, which takes this memory.
    pub fn team(&self, alloc: Global) -> Team<'a, R>
        ensures workers { result.workers ≡ self.now.plan.workers }
        ensures some { 0 < result.workers }
    {
        Team {
            rt: self.rt,
            alloc,
            workers: self.plan.workers(),
        }
    }
}

/// What chains of an input begin with, and what tells where a word of it leads to.
#[derive(Drop)]
pub struct RootsAndIndex<'a> {
    pub roots: Roots,
    pub lookup: Paged<'a>,
}

/// Finds the root words of an input, and makes the lookup among its blocks.
pub fn find_roots_and_index<'a>(
    alloc: Global,
    input: &'a Input<'_>,
    reading: Reading,
) -> Result<RootsAndIndex<'a>, AllocError>
    ensures roots { (lines : List Line) → IsInput lines input.now
        → IfOk result (λ indexed. AreRootsFor lines input.now indexed.roots) }
    ensures lookup { IfOk result (λ indexed. indexed.lookup
        ≡ record { blocks = input.now.live.blocks; reading = distances_of reading }) }
{
    let roots = find_roots(alloc, input)?;
    let lookup = Paged::new(alloc, &input.live, reading)?;
    Ok(RootsAndIndex { roots, lookup })
}

/// Marks the blocks of an input that chains of its words reach.
///
/// # Errors
///
/// `TooMany` if it has more than 2^32 - 1 live blocks. `NoMemory` can come at any time.
pub fn mark_input<R: Threads + Sync, G: Gate + Sync>(
    workers: &Workers<'_, R, G>,
    alloc: Global,
    input: &Input,
    indexed: &RootsAndIndex,
) -> Result<Marked, PoolError>
    requires same_blocks { indexed.now.lookup.blocks ≡ input.now.live.blocks }
    ensures many { IsErrOf result PoolError.TooMany ↔ (2 ^ 32 - 1 < length input.now.live.blocks) }
    ensures marks { IfOk result (MarksFromRoots (word_of input.now.image) indexed.now.lookup
        indexed.now.roots workers.now.plan.workers) }
    ensures course { IfOk result (IsByRounds (word_of input.now.image) indexed.now.lookup
        indexed.now.roots [] [] workers.now.plan) }
{
    mark_by_edges(
        workers.rt,
        alloc,
        &input.image,
        &indexed.lookup,
        &indexed.roots,
        &input.live,
        workers.plan,
        workers.gate,
        input.edges,
    )
}
