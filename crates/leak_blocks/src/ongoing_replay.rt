//! A replay between two lines.
ghost use Rattle.std.specs.Prelude.{◌≡◌, ◌++◌, map, IfOk, OnOk, true};
ghost use Rattle.leak_mtrace.specs.Log.{IsPastEnd};
ghost use Rattle.leak_blocks.specs.Live.{block_of, is_allocation, is_give_back};
ghost use Rattle.leak_blocks.specs.Numbers.{HasBlocks};
ghost use Rattle.leak_blocks.specs.Runs.{MayBePlaced, ArePlacedOf, IsLimitOf, HasComeTo, IsStepOf, AreJoinedOf};
ghost use Rattle.leak_blocks.specs.Windows.{all_blocks, grown_by};

use crate::block::Block;
use crate::numbers::{Numbers, block_at, displace};
use crate::replaying::{is_allocation, is_give_back};
use leak_mtrace::Line;
use std::alloc::AllocError;
use std::collections::btree_map::Range;

/// How far above the last allocation another may begin and still count as one of many at ascending addresses.
const NEAR_BYTES: u64 = 1 << 20;

/// A replay between two lines.
///
/// Programs often allocate at ascending addresses for a while. So the blocks that were allocated last, one above the
/// other, are kept in a list beside the map: the run. They are put in the map only when another allocation or a
/// give-back needs it.
#[derive(Drop)]
pub struct OngoingReplay<'a> {
    /// The blocks of the allocations that are held, as in a [`Stage`](crate::Stage).
    pub(crate) allocated: Vec<Block>,
    pub(crate) numbers: Numbers<'a>,
    /// The numbers of the run's allocations, by the starts of their blocks.
    pub(crate) run: Vec<usize>,
    /// No block of the run, nor one below it, has an address above this one.
    pub(crate) low: u64,
    /// No block above the run begins below this address.
    pub(crate) high: u64,
    /// How many blocks are held at most until allocations that ended may be let go.
    pub(crate) most: usize,
    pub(crate) unknown: u64,
    pub(crate) displaced: u64,
}

/// Puts the blocks of the run in the map.
pub(crate) fn place(
    numbers: &mut Numbers<'_>,
    allocated: &[Block],
    run: &[usize],
) -> Result<(), AllocError>
    requires { MayBePlaced allocated.now numbers.old.entries run.now }
    ensures { OnOk result (ArePlacedOf allocated.now numbers.old.entries run.now numbers.new.entries) }
{
    for number in run {
        numbers.insert(block_at(allocated, *number).start, *number)?;
    }
    Ok(())
}

/// The start of the first block at this address or above it. If there is none, the last address of all.
fn limit(numbers: &Numbers<'_>, allocated: &[Block], last: u64) -> u64
    requires { HasBlocks allocated.now numbers.now.entries }
    ensures { IsLimitOf allocated.now numbers.now.entries last result }
{
    match numbers.range(last..).next() {
        Some((start, _)) => *start,
        None => u64::MAX,
    }
}

/// Adds the numbers of these entries of the map.
fn append(joined: &mut Vec<usize>, entries: Range<'_, u64, usize>) -> Result<(), AllocError>
    ensures { OnOk result (joined.new.items ≡ joined.old.items ++ map (λ e. e.1) entries.entry) }
{
    for (_, number) in entries {
        joined.push(*number)?;
    }
    Ok(())
}

/// The numbers of the run's allocations and those of the map, by the starts of their blocks.
///
/// It uses the run's list, which has room for all, so that no list is made beside a full arena.
pub(crate) fn joined(
    numbers: &Numbers<'_>,
    allocated: &[Block],
    run: Vec<usize>,
) -> Result<Vec<usize>, AllocError>
    requires { MayBePlaced allocated.now numbers.now.entries run.items }
    ensures { IfOk result (λ joined.
        AreJoinedOf allocated.now numbers.now.entries run.items joined.items) }
{
    let held = run.len();
    let first = match run.first() {
        Some(number) => block_at(allocated, *number).start,
        None => 0,
    };
    let mut joined = run;
    append(&mut joined, numbers.range(..first))?;
    joined.rotate_left(held);
    append(&mut joined, numbers.range(first..))?;
    Ok(joined)
}

/// The block of the log's line of this number, counted from 1.
fn block_of(line: &Line, number: usize) -> Block
    ensures { result ≡ block_of number line.now }
{
    Block {
        start: line.addr,
        size: line.size,
        line: number,
        caller: line.caller,
    }
}

impl OngoingReplay<'_> {
    /// The blocks of the allocations that are held: of those so far that were not let go, in the order of their lines.
    pub fn allocated(&self) -> &[Block]
        ensures { result.now ≡ all_blocks self.now }
    {
        self.allocated.as_slice()
    }

    /// Goes over the next line, which has this number, counted from 1.
    #[inline(always)]
    pub(crate) fn step(&mut self, line: &Line, number: usize) -> Result<(), AllocError>
        requires fits { IsPastEnd line.now → ⊥ }
        requires so_far { HasComeTo number self.old }
        ensures after { OnOk result (IsStepOf line.now number self.old self.new) }
        ensures allocated { OnOk result
            (all_blocks self.new ≡ grown_by number line.now (all_blocks self.old)) }
    {
        if is_allocation(line) {
            self.allocate(line, number)
        } else if is_give_back(line) {
            self.give_back(line, number)
        } else {
            Ok(())
        }
    }

    /// Goes over an allocation.
    #[inline(always)]
    fn allocate(&mut self, line: &Line, number: usize) -> Result<(), AllocError>
        requires fits { IsPastEnd line.now → ⊥ }
        requires so_far { HasComeTo number self.old }
        requires allocates { is_allocation line.now ≡ true }
        ensures after { OnOk result (IsStepOf line.now number self.old self.new) }
        ensures allocated { OnOk result
            (all_blocks self.new ≡ grown_by number line.now (all_blocks self.old)) }
    {
        let last = line.addr + (line.size.max(1) - 1);
        if line.addr <= self.low || self.high <= last {
            return self.begin(line, number);
        }
        self.run.push(self.allocated.len())?;
        self.allocated.push(block_of(line, number))?;
        self.low = last;
        Ok(())
    }

    /// Goes over an allocation, wherever it lies, and begins a new run with it.
    fn begin(&mut self, line: &Line, number: usize) -> Result<(), AllocError>
        requires fits { IsPastEnd line.now → ⊥ }
        requires so_far { HasComeTo number self.old }
        requires allocates { is_allocation line.now ≡ true }
        ensures after { OnOk result (IsStepOf line.now number self.old self.new) }
        ensures allocated { OnOk result
            (all_blocks self.new ≡ grown_by number line.now (all_blocks self.old)) }
    {
        let last = line.addr + (line.size.max(1) - 1);
        place(&mut self.numbers, self.allocated.as_slice(), &self.run)?;
        self.run.clear();
        self.displaced += displace(&mut self.numbers, self.allocated.as_slice(), line);
        // If it is below the last or far from it, no limit is searched for: few allocations follow right above such a one.
        let near = line.addr.wrapping_sub(self.low) < NEAR_BYTES;
        let high = if near {
            limit(&self.numbers, self.allocated.as_slice(), last)
        } else {
            last
        };
        self.run.push(self.allocated.len())?;
        self.allocated.push(block_of(line, number))?;
        self.low = last;
        self.high = high;
        Ok(())
    }

    /// Goes over a give-back.
    fn give_back(&mut self, line: &Line, number: usize) -> Result<(), AllocError>
        requires so_far { HasComeTo number self.old }
        requires gives_back { is_give_back line.now ≡ true }
        ensures after { OnOk result (IsStepOf line.now number self.old self.new) }
        ensures allocated { OnOk result
            (all_blocks self.new ≡ grown_by number line.now (all_blocks self.old)) }
    {
        if let Some(last) = self.run.last() {
            if block_at(self.allocated.as_slice(), *last).start == line.addr {
                self.run.pop();
                self.low = line.addr - 1;
                return Ok(());
            }
        }
        place(&mut self.numbers, self.allocated.as_slice(), &self.run)?;
        self.run.clear();
        if self.numbers.remove(&line.addr).is_none() {
            self.unknown += 1;
        }
        Ok(())
    }
}
