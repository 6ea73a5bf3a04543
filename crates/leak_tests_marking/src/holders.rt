//! Which numbers hold each block.

use crate::comparisons::same;
use crate::lists::{words_of, words_of_set};
use std::alloc::{AllocError, Global};
use std::process::Abort;
use std::test::*;

// For each block the bits of the numbers that hold it, if a chain reaches each block.
fn holders(alloc: Global, words: &[u64]) -> Result<Vec<u64>, AllocError> {
    words.iter().map(|word| !*word).collect(alloc)
}

#[test]
fn the_top_of_a_diamond_holds_all_four(rt: HostRuntime) -> Result<(), Fail> {
    let lists: [&[u32]; 4] = [&[1, 2], &[3], &[3], &[]];
    let words = words_of(&rt, rt.alloc(), &lists, &[0], &[0, 1, 2, 3], 0)?;
    let held = holders(rt.alloc(), words.as_slice())?;
    same(
        &rt,
        held.as_slice(),
        [0b0001u64, 0b0011, 0b0101, 0b1001].as_slice(),
    );
    Ok(())
}

// Blocks 0 to 2 lead to one another in both directions, and each to one of blocks 3 to 5.
#[test]
fn a_doubly_linked_list_is_held_by_its_caller(rt: HostRuntime) -> Result<(), Fail> {
    let lists: [&[u32]; 6] = [&[1, 3], &[0, 2, 4], &[1, 5], &[], &[], &[]];
    let words = words_of(&rt, rt.alloc(), &lists, &[0, 2], &[0, 0, 0, 1, 1, 1], 0)?;
    let held = holders(rt.alloc(), words.as_slice())?;
    same(
        &rt,
        held.as_slice(),
        [0b01u64, 0b01, 0b01, 0b11, 0b11, 0b11].as_slice(),
    );
    Ok(())
}

// Two chains lead to block 4, and each passes a block of number 0 and a block of number 1.
#[test]
fn a_block_is_held_by_each_of_two_numbers(rt: HostRuntime) -> Result<(), Fail> {
    let lists: [&[u32]; 5] = [&[1], &[4], &[3], &[4], &[]];
    let words = words_of(&rt, rt.alloc(), &lists, &[0, 2], &[0, 1, 1, 0, 2], 0)?;
    let held = holders(rt.alloc(), words.as_slice())?;
    same(
        &rt,
        held.as_slice(),
        [0b001u64, 0b011, 0b010, 0b011, 0b111].as_slice(),
    );
    Ok(())
}

// Block 3 gives bit 1 late: its first chain passes block 1, and its second is longer.
#[test]
fn bits_that_come_late_are_given_on(rt: HostRuntime) -> Result<(), Fail> {
    let lists: [&[u32]; 6] = [&[1, 2], &[3], &[5], &[4], &[], &[3]];
    let words = words_of(&rt, rt.alloc(), &lists, &[0], &[10, 11, 12, 13, 14, 15], 10)?;
    let held = holders(rt.alloc(), words.as_slice())?;
    let wanted = [
        0b000001u64,
        0b000011,
        0b000101,
        0b001001,
        0b011001,
        0b100101,
    ];
    same(&rt, held.as_slice(), wanted.as_slice());
    Ok(())
}

#[test]
fn no_chain_reaches_a_block_that_only_leads(rt: HostRuntime) -> Result<(), Fail> {
    let lists: [&[u32]; 2] = [&[], &[0]];
    let top = u32::MAX;
    let words = words_of(&rt, rt.alloc(), &lists, &[0], &[top, top - 64], top - 63)?;
    same(&rt, words.as_slice(), [u64::MAX >> 1, 0].as_slice());
    Ok(())
}

#[test]
fn the_sides_of_a_diamond_hold_its_end_together(rt: HostRuntime) -> Result<(), Fail> {
    let lists: [&[u32]; 4] = [&[1, 2], &[3], &[3], &[]];
    let words = words_of_set(&rt, rt.alloc(), &lists, &[0], &[false, true, true, false])?;
    let bits: Vec<u64> = words.iter().map(|word| *word & 0b101).collect(rt.alloc())?;
    same(
        &rt,
        bits.as_slice(),
        [0b101u64, 0b100, 0b100, 0b100].as_slice(),
    );
    Ok(())
}

// Each block leads to the next, and block k has number k.
fn chain_of_70(rt: &impl Abort, alloc: Global, from: u32) -> Result<Vec<u64>, AllocError> {
    let blocks: Vec<u32> = (0..70u32).collect(alloc)?;
    let all = blocks.as_slice();
    let mut lists: Vec<&[u32]> = Vec::new(alloc);
    for block in 0..all.len() {
        let end = (block + 2).min(all.len());
        lists.push(&all[block + 1..end])?;
    }
    words_of(rt, alloc, lists.as_slice(), &[0], all, from)
}

#[test]
fn a_chain_of_70_in_two_calls(rt: HostRuntime) -> Result<(), Fail> {
    let low = chain_of_70(&rt, rt.alloc(), 0)?;
    let low = holders(rt.alloc(), low.as_slice())?;
    let high = chain_of_70(&rt, rt.alloc(), 64)?;
    let high = holders(rt.alloc(), high.as_slice())?;
    assert_eq!(rt; low.len(), 70);
    assert_eq!(rt; high.len(), 70);
    same(
        &rt,
        [low[0], low[62], low[63], low[69]],
        [1, u64::MAX >> 1, u64::MAX, u64::MAX],
    );
    same(
        &rt,
        [high[0], high[63], high[64], high[69]],
        [0, 0, 1, 0b111111],
    );
    Ok(())
}
