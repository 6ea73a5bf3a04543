//! Mark bits and lists of claims.
ghost use Rattle.std.specs.Prelude.{◌≡◌, ◌<◌, ◌≤◌, length, IfOk};

use crate::comparisons::same;
use leak_marks::{Claims, MarkSeat, Marks};
use std::alloc::{AllocError, Global};
use std::test::*;
use std::thread;

#[test]
fn claims_of_three_blocks(rt: HostRuntime) -> Result<(), Fail> {
    let mut claims = Claims::new(rt.alloc(), 3, 2)?;
    assert!(rt; claims.attempt(0, 1));
    assert!(rt; !claims.attempt(1, 1));
    assert!(rt; claims.attempt(1, 0));
    same(&rt, claims.claims(0), [1u32].as_slice());
    same(&rt, claims.claims(1), [0u32].as_slice());
    assert!(rt; claims.is_marked(1));
    assert!(rt; !claims.is_marked(2));
    Ok(())
}

// Block 0 leads to 1 to 50, and each of these to the block 50 above it. Level by level, the workers by turns.
fn by_levels(alloc: Global) -> Result<Claims, AllocError>
    ensures { IfOk result (λ c. (c.blocks ≡ 101) × (length c.lists ≡ 2)) }
{
    let mut claims = Claims::new(alloc, 101, 2)?;
    claims.attempt(0, 0);
    for block in 1..101 {
        claims.attempt(block % 2, block);
    }
    Ok(claims)
}

// The same graph from the last block back, each with what it leads to. Both workers try some blocks.
fn in_depth(alloc: Global) -> Result<Claims, AllocError>
    ensures { IfOk result (λ c. (c.blocks ≡ 101) × (length c.lists ≡ 2)) }
{
    let mut claims = Claims::new(alloc, 101, 2)?;
    claims.attempt(1, 0);
    for i in 0..50 {
        let block = 50 - i;
        claims.attempt(1, block);
        claims.attempt(0, block + 50);
        claims.attempt(0, block);
    }
    Ok(claims)
}

#[test]
fn two_whole_runs_over_101_blocks(rt: HostRuntime) -> Result<(), Fail> {
    let one = by_levels(rt.alloc())?;
    let other = in_depth(rt.alloc())?;
    for block in 0..101 {
        assert!(rt; one.is_marked(block), "block {block} by levels");
        assert!(rt; other.is_marked(block), "block {block} in depth");
    }
    same(&rt, one.claims(0).len(), 51);
    same(&rt, one.claims(1).len(), 50);
    same(&rt, other.claims(0).len(), 50);
    same(&rt, other.claims(1).len(), 51);
    Ok(())
}

#[test]
fn marks_of_65_blocks(rt: HostRuntime) -> Result<(), Fail> {
    let (marks, mut first) = Marks::new(rt.alloc(), 65)?;
    let Some(mut second) = marks.split(&mut first) else {
        panic!(rt; "no seat")
    };
    assert!(rt; marks.claim(&mut second, 64));
    assert!(rt; !marks.claim(&mut first, 64));
    assert!(rt; marks.seen(&mut first, 64));
    assert!(rt; !marks.seen(&mut first, 0));
    marks.join(&mut first, second);
    let words = marks.close(rt.alloc(), first)?;
    same(&rt, words.as_slice(), [0u64, 1].as_slice());
    Ok(())
}

#[test]
fn no_block(rt: HostRuntime) -> Result<(), Fail> {
    let (marks, first) = Marks::new(rt.alloc(), 0)?;
    let words = marks.close(rt.alloc(), first)?;
    same(&rt, words.as_slice(), [0u64].as_slice());
    Ok(())
}

#[test]
fn a_seat_that_was_split_off_gives_none(rt: HostRuntime) -> Result<(), Fail> {
    let (marks, mut first) = Marks::new(rt.alloc(), 1)?;
    for _ in 0..63 {
        let Some(mut other) = marks.split(&mut first) else {
            panic!(rt; "no seat")
        };
        assert!(rt; marks.split(&mut other).is_none());
    }
    assert!(rt; marks.claim(&mut first, 0));
    Ok(())
}

// Claims 1000 blocks, from the first on or from the last back, and counts what it won.
fn claim_all(marks: &Marks, mut seat: MarkSeat, back: bool) -> (u64, MarkSeat)
    requires { (seat.table ≡ marks.now.table) × (marks.now.blocks ≡ 1000) }
    ensures { (result.1.table ≡ seat.table) × (result.0 ≤ 1000) }
{
    let mut won = 0u64;
    for i in 0..1000u32 {
        let block = if back { 999 - i } else { i };
        if marks.claim(&mut seat, block) {
            won += 1;
        }
    }
    (won, seat)
}

#[test]
fn two_threads_claim(rt: HostRuntime) -> Result<(), Fail> {
    let (marks, mut first) = Marks::new(rt.alloc(), 1000)?;
    let Some(second) = marks.split(&mut first) else {
        panic!(rt; "no seat")
    };
    let shared = &marks;
    let (one, other) = thread::join(
        &rt,
        move || claim_all(shared, first, false),
        move || claim_all(shared, second, true),
    );
    let (mine, mut first) = one;
    let (theirs, second) = other;
    same(&rt, mine + theirs, 1000);
    marks.join(&mut first, second);
    let words = marks.close(rt.alloc(), first)?;
    let mut want = [u64::MAX; 16];
    want[15] = 1_099_511_627_775;
    same(&rt, words.as_slice(), want.as_slice());
    Ok(())
}

// Claims one block.
fn claim_one(marks: &Marks, mut seat: MarkSeat, block: u32) -> MarkSeat
    requires table { seat.table ≡ marks.now.table }
    requires block { block < marks.now.blocks }
    ensures { result.table ≡ seat.table }
{
    marks.claim(&mut seat, block);
    seat
}

#[test]
fn a_claim_of_a_joined_thread_is_seen(rt: HostRuntime) -> Result<(), Fail> {
    let (marks, mut first) = Marks::new(rt.alloc(), 200)?;
    let Some(second) = marks.split(&mut first) else {
        panic!(rt; "no seat")
    };
    let shared = &marks;
    let (mut first, _second) = thread::join(
        &rt,
        move || claim_one(shared, first, 7),
        move || claim_one(shared, second, 150),
    );
    assert!(rt; marks.seen(&mut first, 150));
    assert!(rt; !marks.seen(&mut first, 151));
    Ok(())
}
