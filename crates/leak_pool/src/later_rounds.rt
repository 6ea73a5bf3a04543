//! The rounds after the first.
ghost use Rattle.std.specs.Prelude.{◌≡◌, ℕ, ◌<◌, ◌≤◌, ◌+◌, [], length, IfOk, ◌-◌, ◌++◌, ◌∷◌, List};
ghost use Rattle.leak_pool.specs.MarkingState.{IsBetweenRounds, HasCourse, HasRoundMore, claims_of};
ghost use Rattle.leak_pool.specs.Course.{HaveGone};
ghost use Rattle.leak_pool.specs.Gates.{HavePassed};

use crate::gate::Gate;
use crate::items::Items;
use crate::marking_state::MarkingState;
use crate::rounds::{by_caller, by_workers};
use crate::search::Search;
use crate::target_source::{Item, TargetSource, targets_are_blocks};
use std::alloc::{AllocError, Global};
use std::mem::replace;
use std::thread::Threads;

/// A later round: the caller scans the first of the blocks that wait, and the workers scan the others.
pub(crate) fn later_round<R: Threads + Sync, S: TargetSource + Sync, G: Gate + Sync>(
    rt: &R,
    alloc: Global,
    search: &Search<'_, S>,
    gate: &G,
    mut state: MarkingState,
) -> Result<MarkingState, AllocError>
    requires between { IsBetweenRounds search.now state }
    requires waiting { 0 < length state.waiting.items }
    ensures between { IfOk result (IsBetweenRounds search.now) }
    ensures size { IfOk result (λ p.
        length state.seat.claims + length p.waiting.items ≤ length p.seat.claims) }
    ensures course { (count : ℕ) → (course : HasCourse search.now state count)
        → IfOk result (λ p. HasRoundMore search.now p count course.0) }
    ensures gate { let workers = search.now.workers in
        IfOk result (λ p. (rounds : List ℕ)
        → HavePassed (G.passed gate.now) workers rounds state.steps.items
        → HavePassed (G.passed gate.now) workers
        (rounds ++ (length state.waiting.items - 1) ∷ []) p.steps.items) }
{
    targets_are_blocks(search.source);
    let waiting = replace(&mut state.waiting, Vec::new(alloc));
    by_caller(alloc, search, Item::Block(waiting[0]), &mut state)?;
    let items = Items::Blocks(&waiting[1..]);
    by_workers(rt, alloc, search, gate, items, state)
}

/// Runs the rounds after the first, until no block waits. Gives what is marked then, and the number of rounds, the first
/// included.
pub(crate) fn until_none<R: Threads + Sync, S: TargetSource + Sync, G: Gate + Sync>(
    rt: &R,
    alloc: Global,
    search: &Search<'_, S>,
    gate: &G,
    mut state: MarkingState,
) -> Result<(MarkingState, u64), AllocError>
    requires between { IsBetweenRounds search.now state }
    requires course { HasCourse search.now state 1 }
    ensures between { IfOk result (λ r. IsBetweenRounds search.now r.0) }
    ensures course { IfOk result (λ r. HasCourse search.now r.0 r.1) }
    ensures ended { IfOk result (λ r. r.0.waiting.items ≡ []) }
    ensures rounds { IfOk result (λ r. r.1 ≤ length search.now.targets + 1) }
    ensures gate { let model = search.now in let first = length model.roots in
        IfOk result (λ r.
        HavePassed (G.passed gate.now) model.workers (first ∷ []) state.steps.items
        → HaveGone (G.passed gate.now) first model.roots model.targets model.workers model.stack
        r.1 (claims_of r.0) r.0.waiting.items) }
{
    let mut rounds = 1u64;
    'until: while !state.waiting.is_empty() {
        state = later_round(rt, alloc, search, gate, state)?;
        rounds += 1;
    }
    Ok((state, rounds))
}
