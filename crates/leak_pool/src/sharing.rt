//! The workers of a round, each started by the caller, one after another: where new threads start others at the same
//! moment, the kernel puts two of them on one processor. Besides this file, `rows.rt` alone starts threads.
ghost use Rattle.std.specs.Prelude.{◌≡◌, ◌++◌, IfOk, IsOkAnd};
ghost use Rattle.leak_marks.specs.Seats.{IsSound, both_seats};
ghost use Rattle.leak_pool.specs.Promises.{AreBoth, CanScan, HaveScanned};

use crate::appending::append_blocks;
use crate::task::{Gained, Gains, Task};
use leak_marks::{MarkSeat, Marks};
use std::alloc::Global;
use std::thread::{Threads, join};

// What some workers and those after them gained, in this order.
fn both(first: Gained, second: Gained) -> Gained
    ensures { IfOk result (λ all. IsOkAnd first (λ a. IsOkAnd second (λ b. AreBoth a b all))) }
{
    let mut all = first?;
    let Gains { mut claims, left } = second?;
    let before = &mut all.claims;
    before.append(&mut claims)?;
    append_blocks(&mut all.left, left)?;
    Ok(all)
}

// Joins the seats of some workers and of those after them.
fn merge(marks: &Marks, lower: (MarkSeat, Gained), upper: (MarkSeat, Gained)) -> (MarkSeat, Gained)
    requires { (lower.0.table ≡ marks.now.table) × (upper.0.table ≡ marks.now.table) }
    ensures seat { result.0 ≡ both_seats lower.0 upper.0 }
    ensures sound { IsSound result.0 }
    ensures gained { IfOk result.1
        (λ all. IsOkAnd lower.1 (λ a. IsOkAnd upper.1 (λ b. AreBoth a b all))) }
{
    let (mut seat, first) = lower;
    let (other, second) = upper;
    marks.join(&mut seat, other);
    (seat, both(first, second))
}

/// The workers from `low` up to `high` scan their shares at once: the last in a new thread, the others from here.
pub(crate) fn scan_shares<R: Threads + Sync, T: Task + Sync>(
    rt: &R,
    alloc: Global,
    task: &T,
    mut seat: MarkSeat,
    low: u32,
    high: u32,
) -> (MarkSeat, Gained)
    requires { CanScan (T.work task.now) low high seat }
    ensures { HaveScanned (T.work task.now) (T.passed task.now) low high seat result.0 result.1 }
{
    if high - low == 1 {
        let gained = task.scan_share(alloc, &mut seat, low);
        return (seat, gained);
    }
    let middle = high - 1;
    if !task.is_shared(low, middle, high) {
        let (seat, first) = scan_shares(rt, alloc, task, seat, low, middle);
        let (seat, second) = scan_shares(rt, alloc, task, seat, middle, high);
        return (seat, both(first, second));
    }
    let other = task.marks().split(&mut seat).unwrap();
    let (upper, lower) = join(
        rt,
        move || -> (MarkSeat, Gained)
            requires { CanScan (T.work task.now) middle high other }
            ensures { let entry = task.entry.now in
                HaveScanned (T.work entry) (T.passed entry) middle high other result.0 result.1 }
        { scan_shares(rt, alloc, task, other, middle, high) },
        move || -> (MarkSeat, Gained)
            requires { CanScan (T.work task.now) low middle seat }
            ensures { let entry = task.entry.now in
                HaveScanned (T.work entry) (T.passed entry) low middle seat result.0 result.1 }
        { scan_shares(rt, alloc, task, seat, low, middle) },
    );
    merge(task.marks(), lower, upper)
}
