//! Marking by worker threads.
ghost use Rattle.std.specs.Prelude.{◌≡◌, ◌↔◌, ◌<◌, ◌≤◌, ◌-◌, ◌^◌, [], IfOk, IsErrOf, length};
ghost use Rattle.leak_roots.specs.Cut.{pieces_of};
ghost use Rattle.leak_roots.specs.Pieces.{AreCut};
ghost use Rattle.leak_pool.specs.Course.{IsByRounds, IsThroughGate};
ghost use Rattle.leak_pool.specs.Depth.{AreByDepth};
ghost use Rattle.leak_pool.specs.Marking.{MarksFromRoots, MarksFrom, IsStartOf, graph_of_roots, graph_from};

use crate::error::PoolError;
use crate::gate::Gate;
use crate::marked::Marked;
use crate::marking_by_rounds::mark_by_rounds;
use crate::plan::Plan;
use crate::scope::Scope;
use crate::start::Start;
use leak_blocks::{Block, Live};
use leak_elf::Words;
use leak_index::Lookup;
use leak_roots::{Pieces, Roots};
use leak_scan::Pages;
use std::alloc::{AllocError, Global};
use std::thread::Threads;

/// Marks what the roots lead to, by the workers of the plan. There is one list of claims for each worker. It is for libraries and
/// tests: the program marks by edges.
pub fn mark<R: Threads + Sync, W: Words + Sync, L: Lookup + Sync, G: Gate + Sync>(
    rt: &R,
    alloc: Global,
    words: &W,
    lookup: &L,
    roots: &Roots,
    live: &Live,
    plan: Plan,
    gate: &G,
) -> Result<Marked, PoolError>
    requires { (L.index lookup.now).blocks ≡ live.now.blocks }
    ensures many { IsErrOf result PoolError.TooMany ↔ (2 ^ 32 - 1 < length live.now.blocks) }
    ensures marks { let w = W.word_at words.now in let i = L.index lookup.now in
        IfOk result (MarksFromRoots w i roots.now plan.workers) }
    ensures course { let w = W.word_at words.now in let i = L.index lookup.now in
        IfOk result (IsByRounds w i roots.now [] [] plan) }
    ensures depth { let g = graph_of_roots (W.word_at words.now) (L.index lookup.now) roots.now in
        IfOk result (λ m. plan.stack ≡ 0 → 0 < length live.now.blocks → AreByDepth g m.rounds) }
    ensures gate { let w = W.word_at words.now in let i = L.index lookup.now in
        IfOk result (IsThroughGate (G.passed gate.now) w i roots.now [] [] plan) }
{
    let start = Start {
        marked: Vec::new(alloc),
        rescan: Vec::new(alloc),
    };
    let pages = Pages::new(Vec::new(alloc)).unwrap();
    mark_from(
        rt, alloc, words, lookup, roots, live, plan, gate, &start, &pages,
    )
}

/// Marks what the roots and the scanned parts of a start lead to, outside the blocks that the start marks.
pub fn mark_from<R: Threads + Sync, W: Words + Sync, L: Lookup + Sync, G: Gate + Sync>(
    rt: &R,
    alloc: Global,
    words: &W,
    lookup: &L,
    roots: &Roots,
    live: &Live,
    plan: Plan,
    gate: &G,
    start: &Start,
    pages: &Pages,
) -> Result<Marked, PoolError>
    requires blocks { (L.index lookup.now).blocks ≡ live.now.blocks }
    requires start { IsStartOf (length live.now.blocks) start.now }
    ensures many { IsErrOf result PoolError.TooMany ↔ (2 ^ 32 - 1 < length live.now.blocks) }
    ensures marks { let w = W.word_at words.now in let i = L.index lookup.now in
        IfOk result (MarksFrom w i roots.now pages.now start.now plan.workers) }
    ensures course { let w = W.word_at words.now in let i = L.index lookup.now in
        IfOk result (IsByRounds w i roots.now pages.now start.now.rescan.items plan) }
    ensures depth { let w = W.word_at words.now in let i = L.index lookup.now in
        let graph = graph_from w i roots.now pages.now start.now in IfOk result (λ m.
        plan.stack ≡ 0 → 0 < length live.now.blocks → AreByDepth graph m.rounds) }
    ensures gate { let w = W.word_at words.now in let i = L.index lookup.now in IfOk result
        (IsThroughGate (G.passed gate.now) w i roots.now pages.now start.now.rescan.items plan) }
{
    let blocks = numbered_blocks(live)?;
    let pieces = pieces_of(alloc, roots, plan)?;
    let scope = Scope {
        words,
        lookup,
        live,
        blocks,
        roots,
        pieces: &pieces,
        rescan: start.rescan.as_slice(),
        pages,
    };
    Ok(mark_by_rounds(rt, alloc, &scope, gate, plan, start.marked.as_slice())?)
}

/// The live blocks, unless there are more than claims can name.
pub(crate) fn numbered_blocks(live: &Live) -> Result<&[Block], PoolError>
    ensures many { IsErrOf result PoolError.TooMany ↔ (2 ^ 32 - 1 < length live.now.blocks) }
    ensures blocks { IfOk result (λ blocks. blocks.now ≡ live.now.blocks) }
    ensures few { IfOk result (λ _. length live.now.blocks ≤ 2 ^ 32 - 1) }
{
    let blocks = live.blocks();
    if blocks.len() > u32::MAX as usize {
        return Err(PoolError::TooMany);
    }
    Ok(blocks)
}

/// The pieces of the roots. A piece of a plan has a word, so only memory can be missing.
pub(crate) fn pieces_of(alloc: Global, roots: &Roots, plan: Plan) -> Result<Pieces<'_>, AllocError>
    ensures value { IfOk result (λ pieces. pieces ≡ pieces_of plan.piece roots.now) }
    ensures cut { IfOk result (AreCut roots.now plan.piece) }
{
    roots
        .pieces(alloc, plan.piece() as usize)
        .map_err(|_| AllocError)
}
