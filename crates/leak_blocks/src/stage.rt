//! A replay between two arenas.
ghost use Rattle.std.specs.Prelude.{◌≡◌, ◌<◌, ◌≤◌, ◌↔◌, ◌++◌, [], List, length, take, drop, All, IfOk, IsTrue};
ghost use Rattle.std.specs.List.{range_with_len};
ghost use Rattle.leak_mtrace.specs.declared.line.Line.{Line};
ghost use Rattle.leak_mtrace.specs.Log.{LinesFit};
ghost use Rattle.leak_blocks.specs.Live.{replay_of};
ghost use Rattle.leak_blocks.specs.Numbers.{HaveBlocks, AreBlocksOf, AreBehind, CountUp, IsStageAfter};
ghost use Rattle.leak_blocks.specs.Runs.{IsOngoingAfter};
ghost use Rattle.leak_blocks.specs.Windows.{all_blocks, all_blocks_of, live_numbers};

use crate::block::Block;
use crate::live::Live;
use crate::ongoing_replay::{OngoingReplay, joined, place};
use bumpalo::Bump;
use std::alloc::{AllocError, Global};
use std::collections::BTreeMap;

/// The bytes of a node for each allocation, if it is as empty as it may be, and a quarter more.
const NODE_BYTES: usize = 48;

/// More than what one allocation may take: a node at each level of the tree.
const PATH_BYTES: usize = 8192;

/// The bytes of an arena for the nodes of this many allocations.
pub(crate) fn arena_bytes(allocations: usize) -> usize {
    node_bytes(allocations).saturating_add(PATH_BYTES)
}

/// The bytes of an arena that the nodes of this many further allocations may take.
fn node_bytes(allocations: usize) -> usize {
    allocations
        .saturating_mul(NODE_BYTES)
        .saturating_add(PATH_BYTES)
}

/// How many allocations' nodes an empty arena has room for.
fn room_in(arena: &Bump) -> usize {
    arena.chunk_capacity() / NODE_BYTES
}

/// As many numbers as these, from 0 on, in their memory.
fn counted_up(numbers: Vec<usize>) -> Result<Vec<usize>, AllocError>
    ensures { IfOk result (λ counted.
        counted.items ≡ range_with_len 0 (length numbers.items)) }
{
    let count = numbers.len();
    let mut counted = numbers;
    counted.clear();
    for number in 0..count {
        counted.push(number)?;
    }
    Ok(counted)
}

/// The replay between two arenas.
#[derive(Drop)]
pub struct Stage {
    /// The blocks of the allocations so far, in the order of their lines. Before the others come those that were live
    /// when allocations were let go, by ascending start.
    pub(crate) allocated: Vec<Block>,
    /// The numbers of those that no line so far ends, by the starts of their blocks.
    pub(crate) numbers: Vec<usize>,
    pub(crate) unknown: u64,
    pub(crate) displaced: u64,
}

impl Stage {
    /// Before the first line, with room for this many allocations.
    pub fn new(alloc: Global, allocations: usize) -> Result<Stage, AllocError>
        ensures after { IfOk result (λ stage. IsStageAfter [] stage) }
        ensures allocated { IfOk result (λ stage. all_blocks_of stage ≡ []) }
    {
        Ok(Stage {
            allocated: Vec::with_capacity(alloc, allocations)?,
            numbers: Vec::with_capacity(alloc, allocations)?,
            unknown: 0,
            displaced: 0,
        })
    }

    /// An arena for the map, with room for this many allocations at least.
    ///
    /// All live blocks are placed in it. It has room for twice as many, so that it takes about as many lines until the next
    /// one is needed, however small the guess was.
    pub fn arena(&self, alloc: Global, guess: usize) -> Result<Bump, AllocError> {
        let allocations = guess.max(self.numbers.len().saturating_mul(2));
        Bump::try_with_capacity(alloc, arena_bytes(allocations))
    }

    /// The same without the allocations that lines so far end, so that their memory can be used for others. The live
    /// blocks are numbered by ascending start.
    pub fn without_ended(self, alloc: Global) -> Result<Stage, AllocError>
        requires { (lines : List Line) × IsStageAfter lines self }
        ensures after { IfOk result (λ stage. (lines : List Line)
            → IsStageAfter lines self → IsStageAfter lines stage) }
        ensures live { IfOk result (λ stage. (lines : List Line)
            → IsStageAfter lines self → all_blocks_of stage ≡ (replay_of lines).blocks) }
    {
        let blocks = blocks_of(alloc, self.allocated, self.numbers.as_slice())?;
        Ok(Stage {
            allocated: blocks,
            numbers: counted_up(self.numbers)?,
            unknown: self.unknown,
            displaced: self.displaced,
        })
    }

    /// The numbers of the allocations that no line so far ends, by the starts of their blocks.
    pub fn numbers(&self) -> &[usize]
        ensures value { result.now ≡ live_numbers self.now }
        ensures within { (lines : List Line) → IsStageAfter lines self.now
            → All (λ n. n < length (all_blocks_of self.now)) result.now }
    {
        self.numbers.as_slice()
    }

    /// Goes on with the map in this arena.
    ///
    /// An arena never uses a freed node again. So when the lines would fill the old one, the allocations are placed in a new
    /// one, which is then at most four fifths full.
    pub fn begin(self, arena: &Bump) -> Result<OngoingReplay<'_>, AllocError>
        requires { (lines : List Line) × IsStageAfter lines self }
        ensures after { IfOk result (λ ongoing. (lines : List Line)
            → IsStageAfter lines self → IsOngoingAfter lines ongoing) }
        ensures allocated { IfOk result (λ ongoing. all_blocks ongoing ≡ all_blocks_of self) }
    {
        let most = self.allocated.len().saturating_add(room_in(arena));
        let mut numbers = BTreeMap::new(arena);
        let mut run = self.numbers;
        place(&mut numbers, self.allocated.as_slice(), run.as_slice())?;
        run.clear();
        Ok(OngoingReplay {
            allocated: self.allocated,
            numbers,
            run,
            low: 0,
            high: 0,
            most,
            unknown: self.unknown,
            displaced: self.displaced,
        })
    }

    /// The live blocks, after the last line.
    pub fn live(self, alloc: Global) -> Result<Live, AllocError>
        requires { (lines : List Line) × LinesFit lines × IsStageAfter lines self }
        ensures { IfOk result (λ live. (lines : List Line)
            → IsStageAfter lines self → live ≡ replay_of lines) }
    {
        let blocks = blocks_of(alloc, self.allocated, self.numbers.as_slice())?;
        Ok(Live::new(blocks, self.unknown, self.displaced))
    }
}

impl OngoingReplay<'_> {
    /// Whether the arena of the map may have too few bytes left for the next line, or as many allocations came as it had
    /// room for: most of these may have ended without a node.
    pub(crate) fn is_full(&self, arena: &Bump) -> bool {
        !self.has_room_for(arena, 0)
    }

    /// Whether so many lines can be gone over before few of the arena's bytes are left, if each allocates a block. It is a
    /// guess: without room lines only take further memory.
    pub fn has_room_for(&self, arena: &Bump, lines: usize) -> bool {
        self.allocated.len().saturating_add(lines) < self.most
            && arena.chunk_capacity() >= node_bytes(self.run.len().saturating_add(lines))
    }

    /// Leaves the arena.
    pub fn end(self) -> Result<Stage, AllocError>
        requires { (lines : List Line) × IsOngoingAfter lines self }
        ensures after { IfOk result (λ stage. (lines : List Line)
            → IsOngoingAfter lines self.entry → IsStageAfter lines stage) }
        ensures allocated { IfOk result (λ stage. all_blocks_of stage ≡ all_blocks self.entry) }
    {
        let (allocated, run) = (self.allocated, self.run);
        let numbers = joined(&self.numbers, allocated.as_slice(), run)?;
        Ok(Stage {
            allocated,
            numbers,
            unknown: self.unknown,
            displaced: self.displaced,
        })
    }
}

/// How many numbers there are up to the last that isn't at its own place.
fn moved(numbers: &[usize]) -> usize
    ensures bound { result ≤ length numbers.now }
    ensures rest { CountUp result (drop result numbers.now) }
{
    let mut moved = numbers.len();
    while moved > 0 && numbers[moved - 1] == moved - 1 {
        moved -= 1;
    }
    moved
}

/// The blocks of the allocations with these numbers.
fn gathered(alloc: Global, allocated: &[Block], numbers: &[usize]) -> Result<Vec<Block>, AllocError>
    requires { HaveBlocks allocated.now numbers.now }
    ensures { IfOk result (λ v. AreBlocksOf allocated.now numbers.now v.items) }
{
    let mut blocks = Vec::with_capacity(alloc, numbers.len())?;
    for number in numbers {
        blocks.push(allocated[*number])?;
    }
    Ok(blocks)
}

/// Puts these blocks in the place of as many at the front.
fn replace_first(blocks: &mut [Block], first: &[Block])
    requires { length first.now ≤ length blocks.old }
    ensures { blocks.new ≡ first.now ++ drop (length first.now) blocks.old }
{
    blocks[..first.len()].copy_from_slice(first);
}

/// Whether no number is below its own place in the list, as where the numbers ascend.
fn are_behind(numbers: &[usize]) -> bool
    ensures { IsTrue result ↔ AreBehind numbers.now }
{
    for (place, number) in numbers.iter().enumerate() {
        if *number < place {
            return false;
        }
    }
    true
}

/// Puts the blocks of the allocations with these numbers at the front. None of them is overwritten before it is moved.
fn bring_forward(allocated: &mut [Block], numbers: &[usize])
    requires held { HaveBlocks allocated.old numbers.now }
    requires behind { AreBehind numbers.now }
    ensures { AreBlocksOf allocated.old numbers.now (take (length numbers.now) allocated.new) }
{
    for (place, number) in numbers.iter().enumerate() {
        allocated[place] = allocated[*number];
    }
}

/// The blocks of the allocations with these numbers, in the memory of all. The rest of it is given back.
fn brought_forward(allocated: Vec<Block>, numbers: &[usize]) -> Vec<Block>
    requires held { HaveBlocks allocated.items numbers.now }
    requires behind { AreBehind numbers.now }
    ensures { AreBlocksOf allocated.items numbers.now result.items }
{
    let mut blocks = allocated;
    bring_forward(blocks.as_mut_slice(), numbers);
    blocks.truncate(numbers.len());
    blocks.shrink_to_fit();
    blocks
}

/// The blocks of the allocations with these numbers. If all are live, only those that aren't at their places are copied.
fn blocks_of(
    alloc: Global,
    allocated: Vec<Block>,
    numbers: &[usize],
) -> Result<Vec<Block>, AllocError>
    requires { HaveBlocks allocated.items numbers.now }
    ensures { IfOk result (λ v. AreBlocksOf allocated.items numbers.now v.items) }
{
    if numbers.len() != allocated.len() {
        if are_behind(numbers) {
            return Ok(brought_forward(allocated, numbers));
        }
        return gathered(alloc, allocated.as_slice(), numbers);
    }
    let moved = moved(numbers);
    let first = gathered(alloc, allocated.as_slice(), &numbers[..moved])?;
    let mut blocks = allocated;
    replace_first(blocks.as_mut_slice(), first.as_slice());
    Ok(blocks)
}
