//! Marking by workers, from a start, over any source.
ghost use Rattle.std.specs.Prelude.{◌≡◌, ◌<◌, [], ◌∷◌, length, replicate, All, IfOk};
ghost use Rattle.leak_marks.specs.Lists.{Within, mark_of};
ghost use Rattle.leak_marks.specs.Seats.{IsSound};
ghost use Rattle.leak_pool.specs.Course.{HaveGone, HaveLed};
ghost use Rattle.leak_pool.specs.Gates.{HavePassed};
ghost use Rattle.leak_pool.specs.Promises.{as_lists};
ghost use Rattle.leak_pool.specs.Rounds.{AreWords, IsMarked, graph_over};
ghost use Rattle.leak_pool.specs.MarkingState.{IsFresh, IsBetweenRounds, HasCourse};
ghost use Rattle.leak_pool.specs.Marking.{IsSet};

use crate::gate::Gate;
use crate::items::Items;
use crate::later_rounds::until_none;
use crate::marked::Marked;
use crate::marking_state::MarkingState;
use crate::plan::Plan;
use crate::rounds::by_workers;
use crate::search::Search;
use crate::target_source::{TargetSource, targets_are_blocks};
use leak_marks::laws::whole_runs;
use leak_marks::{MarkSeat, Marks, is_marked};
use std::alloc::{AllocError, Global};
use std::thread::Threads;

// The first seat claims the blocks of the start.
fn claim_start(marks: &Marks, seat: &mut MarkSeat, start: &[u32])
    requires table { seat.old.table ≡ marks.now.table }
    requires inside { All (λ b. b < marks.now.blocks) start.now }
    requires none { (seat.old.claims ≡ []) × (seat.old.seen ≡ []) }
    ensures same { (seat.new.table ≡ seat.old.table) × (seat.new.share ≡ seat.old.share) }
    ensures sound { IsSound seat.new }
    ensures claims { Within seat.new.claims start.now }
    ensures seen { Within start.now seat.new.seen }
{
    for block in start {
        marks.claim(seat, *block);
    }
}

// No claim of any worker.
fn no_claims(alloc: Global, workers: u32) -> Result<Vec<Vec<u32>>, AllocError>
    ensures lists { IfOk result (λ c. as_lists c.items ≡ replicate workers []) }
    ensures count { IfOk result (λ c. length c.items ≡ workers) }
{
    let mut claims = Vec::with_capacity(alloc, workers as usize)?;
    for _worker in 0..workers {
        claims.push(Vec::new(alloc))?;
    }
    Ok(claims)
}

// Marking before its first round: nothing is claimed, and no worker has made a step.
fn fresh_state(alloc: Global, seat: MarkSeat, workers: u32) -> Result<MarkingState, AllocError>
    ensures seat { IfOk result (λ p. p.seat ≡ seat) }
    ensures claims { IfOk result (λ p. as_lists p.claims.items ≡ replicate workers []) }
    ensures count { IfOk result (λ p. length p.claims.items ≡ workers) }
    ensures waiting { IfOk result (λ p. p.waiting.items ≡ []) }
    ensures steps { IfOk result (λ p. p.steps.items ≡ replicate workers 0) }
{
    Ok(MarkingState {
        seat,
        claims: no_claims(alloc, workers)?,
        waiting: Vec::new(alloc),
        steps: vec![in alloc; 0u64; workers as usize]?,
    })
}

/// The first round: the first seat claims the start's blocks, and the workers scan the roots.
fn first_round<R: Threads + Sync, S: TargetSource + Sync, G: Gate + Sync>(
    rt: &R,
    alloc: Global,
    search: &Search<'_, S>,
    gate: &G,
    mut state: MarkingState,
) -> Result<MarkingState, AllocError>
    requires { IsFresh search.now state }
    ensures between { IfOk result (IsBetweenRounds search.now) }
    ensures course { IfOk result (λ p. HasCourse search.now p 1) }
    ensures gate { let items = length search.now.roots in
        IfOk result (λ p. HavePassed (G.passed gate.now) search.now.workers (items ∷ []) p.steps.items) }
{
    targets_are_blocks(search.source);
    claim_start(search.marks, &mut state.seat, search.given);
    let items = Items::Roots(search.source.roots());
    by_workers(rt, alloc, search, gate, items, state)
}

// The words of the marks when no block waits, the claims, and the number of rounds.
fn mark_words<R: Threads + Sync, S: TargetSource + Sync, G: Gate + Sync>(
    rt: &R,
    alloc: Global,
    source: &S,
    gate: &G,
    plan: Plan,
    given: &[u32],
) -> Result<(Vec<u64>, Vec<Vec<u32>>, u64), AllocError>
    requires { All (λ b. b < length (S.targets source.now)) given.now }
    ensures words { let targets = S.targets source.now in
        let graph = graph_over (S.roots source.now) targets given.now in IfOk result (λ r.
        AreWords graph (length targets) plan.workers r.0.items (as_lists r.1.items) r.2) }
    ensures course { let targets = S.targets source.now in
        IfOk result (λ r.
        HaveLed (S.roots source.now) targets plan.workers plan.stack r.2 (as_lists r.1.items) []) }
    ensures gate { let roots = S.roots source.now in
        IfOk result (λ r.
        HaveGone (G.passed gate.now) (length roots) roots (S.targets source.now)
        plan.workers plan.stack r.2 (as_lists r.1.items) []) }
{
    // (a law, for the proof: a whole run marks what chains reach, and its claims are one for each block)
    whole_runs();
    let workers = plan.workers();
    // A stack never holds more blocks than there are.
    let stack = plan.stack().min(source.blocks());
    let (marks, seat) = Marks::new(alloc, source.blocks())?;
    let state = fresh_state(alloc, seat, workers)?;
    let search = Search {
        source,
        marks: &marks,
        given,
        workers,
        stack,
    };
    let state = first_round(rt, alloc, &search, gate, state)?;
    let (state, rounds) = until_none(rt, alloc, &search, gate, state)?;
    let words = marks.close(alloc, state.seat)?;
    Ok((words, state.claims, rounds))
}

// For each block whether its mark is set.
fn set_of(alloc: Global, words: &[u64], blocks: u32) -> Result<Vec<bool>, AllocError>
    ensures { IfOk result (λ set. IsSet set.items blocks (λ b. mark_of words.now b ≡ 1)) }
{
    let mut set = Vec::with_capacity(alloc, blocks as usize)?;
    for block in 0..blocks {
        set.push(is_marked(words, block))?;
    }
    Ok(set)
}

/// Marks what the parts of the roots lead to, from the given blocks on.
pub(crate) fn mark_by_rounds<R: Threads + Sync, S: TargetSource + Sync, G: Gate + Sync>(
    rt: &R,
    alloc: Global,
    source: &S,
    gate: &G,
    plan: Plan,
    given: &[u32],
) -> Result<Marked, AllocError>
    requires { All (λ b. b < length (S.targets source.now)) given.now }
    ensures marks { let targets = S.targets source.now in
        let graph = graph_over (S.roots source.now) targets given.now in
        IfOk result (λ m.
        IsMarked graph (length targets) plan.workers m.set.items
        (as_lists m.claims.items) m.rounds) }
    ensures course { let targets = S.targets source.now in
        IfOk result (λ m. 0 < length targets →
        HaveLed (S.roots source.now) targets plan.workers plan.stack m.rounds
        (as_lists m.claims.items) []) }
    ensures gate { let roots = S.roots source.now in let targets = S.targets source.now in
        IfOk result (λ m. 0 < length targets →
        HaveGone (G.passed gate.now) (length roots) roots targets plan.workers plan.stack
        m.rounds (as_lists m.claims.items) []) }
{
    targets_are_blocks(source);
    if source.blocks() == 0 {
        return Ok(Marked {
            set: Vec::new(alloc),
            claims: no_claims(alloc, plan.workers())?,
            rounds: 0,
        });
    }
    let (words, claims, rounds) = mark_words(rt, alloc, source, gate, plan, given)?;
    let set = set_of(alloc, words.as_slice(), source.blocks())?;
    Ok(Marked {
        set,
        claims,
        rounds,
    })
}
