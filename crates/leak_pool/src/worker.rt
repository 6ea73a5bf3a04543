//! What one worker does in a round.
ghost use Rattle.std.specs.Prelude.{◌≡◌, ◌+◌, ◌<◌, ◌≤◌, ℕ, length, slice_index_or, IfOk, IsTrue, IsFalse, vec_capacity};
ghost use Rattle.leak_marks.specs.Lists.{Has};
ghost use Rattle.leak_marks.specs.Seats.{IsSound};
ghost use Rattle.leak_pool.specs.Gates.{HasPassedShare, step_after};
ghost use Rattle.leak_pool.specs.Items.{IsItem, share, targets_of_item};
ghost use Rattle.leak_pool.specs.Promises.{HasLeft, HasWorked, IsEmptyHand, IsHolding, IsPutAway};
ghost use Rattle.leak_pool.specs.SearchModel.{IsSeatOf};
ghost use Rattle.leak_pool.specs.Tops.{IsTopScanned, targets_of_blocks};

use crate::door::Door;
use crate::gate::Gate;
use crate::hand::{Hand, put_away};
use crate::search::{Gated, Round};
use crate::target_source::{Item, TargetSource, targets_are_blocks};
use crate::task::{Gained, Gains, Task};
use leak_marks::{MarkSeat, Marks};
use std::alloc::{AllocError, Global};

/// How many blocks of its stack, or of the round, a worker scans at once. Own rule: what they lead to lies anywhere in memory,
/// and a processor waits for a number of places in the time that it waits for one.
const TOP: usize = 32;

/// The first item of a worker's share, where the share before it ends: `worker * items / workers`, computed so that
/// nothing overflows.
pub(crate) fn share_start(worker: u32, items: usize, workers: u32) -> usize
    requires some { 0 < workers }
    requires few { workers ≤ 64 }
    requires worker { worker ≤ workers }
    ensures start { result ≡ share worker items workers }
    ensures within { result ≤ items }
{
    let worker = worker as usize;
    let workers = workers as usize;
    worker * (items / workers) + worker * (items % workers) / workers
}

// Where the worker's share of the round's items begins, and where it ends.
fn share_of<S: TargetSource>(round: &Round<'_, '_, S>, worker: u32) -> (usize, usize)
    requires { worker < round.now.model.workers }
    ensures start { let work = round.now in
        result.0 ≡ share worker (length work.items) work.model.workers }
    ensures end { let work = round.now in
        result.1 ≡ share (worker + 1) (length work.items) work.model.workers }
    ensures order { result.0 ≤ result.1 }
    ensures within { result.1 ≤ length round.now.items }
{
    let search = round.search;
    let count = round.items.len();
    let start = share_start(worker, count, search.workers);
    let end = share_start(worker + 1, count, search.workers);
    (start, end)
}

// Scans one item. What was claimed is put on the stack, or left.
fn scan_one<S: TargetSource>(
    round: &Round<'_, '_, S>,
    seat: &mut MarkSeat,
    hand: &mut Hand,
    item: Item,
) -> Result<(), AllocError>
    requires seat { IsSeatOf round.now.model seat.old }
    requires hand { IsHolding round.now.model.stack seat.old hand.old }
    requires item { IsItem round.now.model.roots round.now.model.targets item }
    ensures same { (seat.new.table ≡ seat.old.table) × (seat.new.share ≡ seat.old.share) }
    ensures sound { IsSound seat.new }
    ensures done { let model = round.now.model in
        let targets = targets_of_item model.roots model.targets item in
        IfOk result (λ _. IsPutAway targets model.stack seat.old seat.new hand.old hand.new) }
    ensures room { IfOk result (λ _. vec_capacity hand.new.stack ≡ vec_capacity hand.old.stack) }
{
    let search = round.search;
    let from = hand.list.len();
    let list = &mut hand.list;
    search.source.scan(search.marks, seat, list, item)?;
    let limit = search.stack as usize;
    let claimed = &hand.list[from..];
    put_away(claimed, limit, &mut hand.stack, &mut hand.left)
}

// Scans the blocks on top of the stack, several at once. What was claimed is put on the stack, or left.
fn scan_top<S: TargetSource>(
    alloc: Global,
    round: &Round<'_, '_, S>,
    seat: &mut MarkSeat,
    hand: &mut Hand,
) -> Result<(), AllocError>
    requires seat { IsSeatOf round.now.model seat.old }
    requires hand { IsHolding round.now.model.stack seat.old hand.old }
    requires some { 0 < length hand.old.stack.items }
    requires inside { (b : ℕ) → Has hand.old.stack.items b → b < length round.now.model.targets }
    ensures same { (seat.new.table ≡ seat.old.table) × (seat.new.share ≡ seat.old.share) }
    ensures sound { IsSound seat.new }
    ensures done { let model = round.now.model in
        IfOk result (λ _. IsTopScanned model.targets model.stack seat.old seat.new hand.old hand.new) }
    ensures room { IfOk result (λ _. vec_capacity hand.new.stack ≡ vec_capacity hand.old.stack) }
{
    let search = round.search;
    let from = hand.list.len();
    let rest = hand.stack.len().saturating_sub(TOP);
    let list = &mut hand.list;
    let top = &hand.stack[rest..];
    search
        .source
        .scan_blocks(alloc, search.marks, seat, list, top)?;
    hand.stack.truncate(rest);
    let claimed = &hand.list[from..];
    let stack = &mut hand.stack;
    put_away(claimed, search.stack as usize, stack, &mut hand.left)
}

// Scans blocks that are items of the round. What was claimed is put on the stack, or left.
fn scan_several<S: TargetSource>(
    alloc: Global,
    round: &Round<'_, '_, S>,
    seat: &mut MarkSeat,
    hand: &mut Hand,
    blocks: &[u32],
) -> Result<(), AllocError>
    requires seat { IsSeatOf round.now.model seat.old }
    requires hand { IsHolding round.now.model.stack seat.old hand.old }
    requires inside { (b : ℕ) → Has blocks.now b → b < length round.now.model.targets }
    ensures same { (seat.new.table ≡ seat.old.table) × (seat.new.share ≡ seat.old.share) }
    ensures sound { IsSound seat.new }
    ensures done { let model = round.now.model in
        let targets = targets_of_blocks model.targets blocks.now in
        IfOk result (λ _. IsPutAway targets model.stack seat.old seat.new hand.old hand.new) }
    ensures room { IfOk result (λ _. vec_capacity hand.new.stack ≡ vec_capacity hand.old.stack) }
{
    let search = round.search;
    let from = hand.list.len();
    let list = &mut hand.list;
    search
        .source
        .scan_blocks(alloc, search.marks, seat, list, blocks)?;
    let claimed = &hand.list[from..];
    let stack = &mut hand.stack;
    put_away(claimed, search.stack as usize, stack, &mut hand.left)
}

// Whether the worker scans the top of its stack next, on which so many blocks are: if they are enough to be scanned at
// once, or if no item is left of its share.
fn takes_stack(blocks: usize, is_left: bool) -> bool
    ensures some { IsTrue result → 0 < blocks }
    ensures none { IsFalse result → IsFalse is_left → blocks ≡ 0 }
{
    if is_left { blocks >= TOP } else { blocks > 0 }
}

// How many steps the worker has made before the round.
fn steps_before<S: TargetSource>(round: &Round<'_, '_, S>, worker: u32) -> u64
    requires { worker < round.now.model.workers }
    ensures { result ≡ slice_index_or round.now.steps worker 0 }
{
    round.steps[worker as usize]
}

// One worker scans its share: the blocks of its stack, which pass no gate, and while these are few, its next items. Blocks are
// scanned several at once, from wherever they come.
fn work<S: TargetSource, G: Gate>(
    alloc: Global,
    round: &Round<'_, '_, S>,
    door: &mut Door<'_, G>,
    seat: &mut MarkSeat,
    hand: &mut Hand,
    worker: u32,
) -> Result<(), AllocError>
    requires seat { IsSeatOf round.now.model seat.old }
    requires worker { worker < round.now.model.workers }
    requires none { IsEmptyHand hand.old }
    requires room { round.now.model.stack ≤ vec_capacity hand.old.stack }
    requires door { (door.old.worker ≡ worker) × (door.old.step ≡ slice_index_or round.now.steps worker 0) }
    ensures same { (seat.new.table ≡ seat.old.table) × (seat.new.share ≡ seat.old.share) }
    ensures sound { IsSound seat.new }
    ensures done { IfOk result (λ _. HasWorked round.now worker seat.old seat.new hand.new) }
    ensures left { IfOk result (λ _. HasLeft round.now worker hand.new) }
    ensures gate { IfOk result (λ _. HasPassedShare (G.passed door.old.gate.now) round.now worker) }
    ensures once { IfOk result (λ _. door.new.step ≡ step_after round.now worker door.old.step) }
    ensures door { (door.new.gate ≡ door.old.gate) × (door.new.worker ≡ door.old.worker) }
{
    let search = round.search;
    targets_are_blocks(search.source);
    let (mut next, end) = share_of(round, worker);
    'scan: loop {
        if takes_stack(hand.stack.len(), next < end) {
            scan_top(alloc, round, seat, hand)?;
        } else if next >= end {
            return Ok(());
        } else if let Some(blocks) = round.items.next_blocks(next, end, TOP) {
            door.pass_items(blocks.len());
            scan_several(alloc, round, seat, hand, blocks)?;
            next += blocks.len();
        } else {
            door.pass();
            scan_one(round, seat, hand, round.items.at(next))?;
            next += 1;
        }
    }
}

impl<'a, 'b, 'c, S: TargetSource, G: Gate> Task for Gated<'a, 'b, 'c, S, G> {
    ghost use Rattle.leak_pool.specs.Gates.{IsNextPassed};

    ghost work = { λ task. task.round };

    ghost passed = { λ task. IsNextPassed (G.passed task.gate.now) task.round.steps };

    fn marks(&self) -> &Marks {
        let search = self.round.search;
        search.marks
    }

    fn is_shared(&self, low: u32, middle: u32, high: u32) -> bool {
        let search = self.round.search;
        let workers = search.workers;
        let items = self.round.items.len();
        let start = share_start(middle, items, workers);
        self.round.items.are_many()
            && share_start(low, items, workers) < start
            && start < share_start(high, items, workers)
    }

    fn scan_share(&self, alloc: Global, seat: &mut MarkSeat, worker: u32) -> Gained {
        let search = self.round.search;
        let mut claims = Vec::with_capacity(alloc, 1)?;
        let mut hand = Hand {
            list: Vec::new(alloc),
            stack: Vec::with_capacity(alloc, search.stack as usize)?,
            left: Vec::new(alloc),
        };
        let mut door = Door::new(self.gate, worker, steps_before(&self.round, worker));
        work(alloc, &self.round, &mut door, seat, &mut hand, worker)?;
        let Hand { list, left, .. } = hand;
        claims.push(list)?;
        Ok(Gains { claims, left })
    }
}
