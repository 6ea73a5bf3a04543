//! Marking by worker threads over edges.
ghost use Rattle.std.specs.Prelude.{◌≡◌, ◌↔◌, ◌<◌, ◌-◌, ◌^◌, [], IfOk, IfSome, IsErrOf, length};
ghost use Rattle.leak_pool.specs.Course.{HaveGone, HaveLed, IsByRounds, IsThroughGate};
ghost use Rattle.leak_pool.specs.Depth.{AreByDepth};
ghost use Rattle.leak_pool.specs.Marking.{MarksFromRoots, graph_of_roots};
ghost use Rattle.leak_pool.specs.Promises.{as_lists};
ghost use Rattle.leak_pool.specs.Rounds.{IsMarked, graph_over};

use crate::edges::{Edges, edges_of};
use crate::error::PoolError;
use crate::gate::Gate;
use crate::marked::Marked;
use crate::marking::{numbered_blocks, pieces_of};
use crate::marking_by_rounds::mark_by_rounds;
use crate::plan::Plan;
use crate::room::EdgeRoom;
use crate::scope::Scope;
use crate::target_source::TargetSource;
use leak_blocks::Live;
use leak_elf::Words;
use leak_index::Lookup;
use leak_roots::Roots;
use leak_scan::Pages;
use std::alloc::{AllocError, Global};
use std::thread::Threads;

/// Marks what the roots lead to, as [`mark`] does. What each block leads to is listed first, by the workers, so that
/// marking reads no words of blocks; where that were over the room, it marks without.
///
/// A target takes four bytes. Room is shared out among the workers, so one that has blocks with many targets may have too little.
pub fn mark_by_edges<R: Threads + Sync, W: Words + Sync, L: Lookup + Sync, G: Gate + Sync>(
    rt: &R,
    alloc: Global,
    words: &W,
    lookup: &L,
    roots: &Roots,
    live: &Live,
    plan: Plan,
    gate: &G,
    room: EdgeRoom,
) -> Result<Marked, PoolError>
    requires { (L.index lookup.now).blocks ≡ live.now.blocks }
    ensures many { IsErrOf result PoolError.TooMany ↔ (2 ^ 32 - 1 < length live.now.blocks) }
    ensures marks { IfOk result
        (MarksFromRoots (W.word_at words.now) (L.index lookup.now) roots.now plan.workers) }
    ensures course { IfOk result
        (IsByRounds (W.word_at words.now) (L.index lookup.now) roots.now [] [] plan) }
    ensures depth { let g = graph_of_roots (W.word_at words.now) (L.index lookup.now) roots.now in
        IfOk result (λ m. plan.stack ≡ 0 → 0 < length live.now.blocks → AreByDepth g m.rounds) }
    ensures gate { let w = W.word_at words.now in let i = L.index lookup.now in
        IfOk result (IsThroughGate (G.passed gate.now) w i roots.now [] [] plan) }
{
    let blocks = numbered_blocks(live)?;
    let pieces = pieces_of(alloc, roots, plan)?;
    let pages = Pages::new(Vec::new(alloc)).unwrap();
    let scope = Scope {
        words,
        lookup,
        live,
        blocks,
        roots,
        pieces: &pieces,
        rescan: &[],
        pages: &pages,
    };
    let edges = edges_of(rt, alloc, &scope, plan.workers(), room)?;
    let marked = mark_over_edges(rt, alloc, &scope, edges, plan, gate)?;
    Ok(marked)
}

// Marks over the edges of the source, or over the source itself if there are none.
fn mark_over_edges<R: Threads + Sync, S: TargetSource + Sync, G: Gate + Sync>(
    rt: &R,
    alloc: Global,
    source: &S,
    edges: Option<Edges<'_, S>>,
    plan: Plan,
    gate: &G,
) -> Result<Marked, AllocError>
    requires { IfSome edges (λ l. l.source.now ≡ source.now) }
    ensures marks { let targets = S.targets source.now in
        let graph = graph_over (S.roots source.now) targets [] in
        IfOk result (λ m. IsMarked graph (length targets) plan.workers m.set.items
        (as_lists m.claims.items) m.rounds) }
    ensures course { let targets = S.targets source.now in
        IfOk result (λ m. 0 < length targets →
        HaveLed (S.roots source.now) targets plan.workers plan.stack m.rounds
        (as_lists m.claims.items) []) }
    ensures gate { let roots = S.roots source.now in let targets = S.targets source.now in
        IfOk result (λ m. 0 < length targets →
        HaveGone (G.passed gate.now) (length roots) roots targets plan.workers plan.stack
        m.rounds (as_lists m.claims.items) []) }
{
    match edges {
        Some(edges) => mark_by_rounds(rt, alloc, &edges, gate, plan, &[]),
        None => mark_by_rounds(rt, alloc, source, gate, plan, &[]),
    }
}
