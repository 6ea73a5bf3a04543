//! One round.
ghost use Rattle.std.specs.Prelude.{◌≡◌, ◌≤◌, ◌++◌, ◌∷◌, [], ℕ, List, length, All, IfOk};
ghost use Rattle.leak_marks.specs.Lists.{Has};
ghost use Rattle.leak_marks.specs.Rounds.{appended_from};
ghost use Rattle.leak_pool.specs.Gates.{HavePassed};
ghost use Rattle.leak_pool.specs.Items.{IsItem, items_in, targets_of_item};
ghost use Rattle.leak_pool.specs.Promises.{as_lists};
ghost use Rattle.leak_pool.specs.MarkingState.{IsReady, HasScanned, InItems, AreOfShares, AreOfOne};
ghost use Rattle.leak_pool.specs.Rounds.{AreCounted};

use crate::appending::append_blocks;
use crate::gate::Gate;
use crate::items::Items;
use crate::marking_state::MarkingState;
use crate::search::{Gated, Round, Search};
use crate::sharing::scan_shares;
use crate::target_source::{Item, TargetSource};
use crate::task::Gains;
use crate::worker::share_start;
use std::alloc::{AllocError, Global};
use std::mem::replace;
use std::thread::Threads;

// Appends the gained lists to those of the workers, and the blocks that were left to those that wait.
fn absorb(
    alloc: Global,
    claims: &mut Vec<Vec<u32>>,
    waiting: &mut Vec<u32>,
    mut gained: Vec<Vec<u32>>,
    left: Vec<u32>,
) -> Result<(), AllocError>
    requires { length gained.items ≤ length claims.old.items }
    ensures count { length claims.new.items ≡ length claims.old.items }
    ensures claims { IfOk result
        (λ _. as_lists claims.new.items
        ≡ appended_from 0 (as_lists claims.old.items) (as_lists gained.items)) }
    ensures waiting { IfOk result (λ _. waiting.new.items ≡ waiting.old.items ++ left.items) }
{
    append_blocks(waiting, left)?;
    for k in 0..gained.len() {
        let more = replace(&mut gained[k], Vec::new(alloc));
        let list = &mut claims[k];
        append_blocks(list, more)?;
    }
    Ok(())
}

// Adds to the steps of each worker, modulo 2^64, how many of the items its share has.
fn count_steps(steps: &mut Vec<u64>, items: usize, workers: u32)
    requires few { workers ≤ 64 }
    requires steps { length steps.old.items ≡ workers }
    ensures len { length steps.new.items ≡ workers }
    ensures each { AreCounted items workers workers steps.old.items steps.new.items }
{
    for k in 0..workers {
        let first = share_start(k, items, workers);
        let end = share_start(k + 1, items, workers);
        let step = steps[k as usize];
        steps[k as usize] = step.wrapping_add((end - first) as u64);
    }
}

/// A round: all workers scan the items.
pub(crate) fn by_workers<R: Threads + Sync, S: TargetSource + Sync, G: Gate + Sync>(
    rt: &R,
    alloc: Global,
    search: &Search<'_, S>,
    gate: &G,
    items: Items<'_>,
    mut state: MarkingState,
) -> Result<MarkingState, AllocError>
    requires ready { IsReady search.now state }
    requires items { All (IsItem search.now.roots search.now.targets) (items_in items) }
    ensures ready { IfOk result (IsReady search.now) }
    ensures done { let all = items_in items.entry in IfOk result
        (HasScanned (InItems search.now all) (AreOfShares search.now all) search.now state) }
    ensures gate { let workers = search.now.workers in
        IfOk result (λ after. (rounds : List ℕ)
        → HavePassed (G.passed gate.now) workers rounds state.steps.items
        → HavePassed (G.passed gate.now) workers (rounds ++ length (items_in items.entry) ∷ [])
        after.steps.items) }
{
    if items.len() == 0 {
        return Ok(state);
    }
    let mut steps = state.steps;
    let round = Round {
        search,
        items,
        steps: steps.as_slice(),
    };
    let task = Gated { round, gate };
    let (seat, gained) = scan_shares(rt, alloc, &task, state.seat, 0, search.workers);
    let gained = gained?;
    count_steps(&mut steps, items.len(), search.workers);
    state.seat = seat;
    state.steps = steps;
    let Gains { claims, left } = gained;
    absorb(alloc, &mut state.claims, &mut state.waiting, claims, left)?;
    Ok(state)
}

/// The caller scans one item, as worker 0. What it claims waits for the next round.
pub(crate) fn by_caller<S: TargetSource>(
    alloc: Global,
    search: &Search<'_, S>,
    item: Item,
    state: &mut MarkingState,
) -> Result<(), AllocError>
    requires ready { IsReady search.now state.old }
    requires item { IsItem search.now.roots search.now.targets item }
    ensures ready { IsReady search.now state.new }
    ensures done { let targets = targets_of_item search.now.roots search.now.targets item in
        IfOk result (λ _. HasScanned (Has targets) (AreOfOne targets) search.now
        state.old state.new) }
    ensures steps { state.new.steps.items ≡ state.old.steps.items }
{
    let mut list = Vec::new(alloc);
    let seat = &mut state.seat;
    search.source.scan(search.marks, seat, &mut list, item)?;
    let claims = &mut state.claims[0];
    claims.extend_from_slice(list.as_slice())?;
    append_blocks(&mut state.waiting, list)
}
