//! The live blocks between two lines, by their starts.
ghost use Rattle.std.specs.Prelude.{◌≡◌, ◌+◌, ◌<◌, ◌^◌, length};
ghost use Rattle.leak_blocks.specs.Numbers.{HasBlocks, IsAllocationAt, IsMetIn, HasUnmet, CountsMet};

use crate::block::Block;
use bumpalo::Bump;
use leak_mtrace::Line;
use std::collections::BTreeMap;

/// The allocations that no line so far ends: for the start of each, its number, counted from 0.
///
/// Its nodes are in an arena, since a heap may keep freed nodes while the blocks are made.
pub(crate) type Numbers<'a> = BTreeMap<u64, usize, &'a Bump>;

/// The allocation with this number.
pub(crate) fn block_at(allocated: &[Block], number: usize) -> Block
    requires { number < length allocated.now }
    ensures { IsAllocationAt allocated.now number result }
{
    allocated[number]
}

/// The start of the last allocation that this one meets. Those below it end before it begins.
fn last_met(numbers: &Numbers<'_>, allocated: &[Block], line: &Line) -> Option<u64>
    requires fits { line.now.addr + line.now.size < 2 ^ 64 }
    requires held { HasBlocks allocated.now numbers.now.entries }
    ensures { IsMetIn allocated.now numbers.now.entries line.now result }
{
    let last = line.addr + (line.size.max(1) - 1);
    let (_, number) = numbers.range(..=last).next_back()?;
    let block = block_at(allocated, *number);
    if line.addr.saturating_sub(block.start) < block.size.max(1) {
        Some(block.start)
    } else {
        None
    }
}

/// Ends the allocations that this one meets, and counts them.
pub(crate) fn displace(numbers: &mut Numbers<'_>, allocated: &[Block], line: &Line) -> u64
    requires fits { line.now.addr + line.now.size < 2 ^ 64 }
    requires held { HasBlocks allocated.now numbers.old.entries }
    ensures unmet { HasUnmet allocated.now numbers.old.entries line.now numbers.new.entries }
    ensures count { CountsMet allocated.now numbers.old.entries line.now result }
{
    let before = numbers.len();
    while let Some(start) = last_met(numbers, allocated, line) {
        numbers.remove(&start);
    }
    (before - numbers.len()) as u64
}
