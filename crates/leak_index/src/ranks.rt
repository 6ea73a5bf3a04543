//! Rows of addresses, with a bit for each place in which a block starts.
ghost use Rattle.std.specs.Prelude.{◌≡◌, ◌+◌, ◌/◌, ◌%◌, ◌^◌, ◌<◌, ◌≤◌, ℕ, List, length, flat_map, count_ones, IfOk, IfSome, IsTrue};
ghost use Rattle.leak_blocks.specs.Span.{AreDisjoint};
ghost use Rattle.leak_index.specs.AddressPlaces.{FindsStarts, IsAddressPlace, IsOnlyStart};
ghost use Rattle.leak_index.specs.Ranks.{AreAligned, AreRowsFrom, IsApart, IsMadeTo, IsRanked, IsRow, end_of, row_of, start_of};

use crate::address_place::AddressPlace;
use crate::directory::count_pages;
use leak_blocks::Block;
use std::alloc::{AllocError, Global};

/// How many addresses a row has.
const ROW: u64 = 1024;
/// How many addresses a granule has. A row has 64 granules, and no two blocks start in one.
const GRANULE: u64 = 16;
/// How many rows in which no block starts may follow one another.
const GAP: u64 = 64;

/// What a row says of the blocks that start in it.
#[derive(Clone, Copy)]
pub(crate) struct Row {
    /// A bit for each granule in which a block starts.
    bits: u64,
    /// How many blocks start before the row.
    first: u32,
    /// Whether none of the blocks that start in the row begins where the block before it ends.
    apart: bool,
}

impl Row {
    /// The row with one more block, which has the number and starts in the row, at `start`.
    fn with(self, blocks: &[Block], number: usize, start: u64) -> Row
        requires disjoint { AreDisjoint blocks.now }
        requires inside { number < length blocks.now }
        requires here { start ≡ start_of blocks.now number }
        requires aligned { start % 16 ≡ 0 }
        requires row { IsRow blocks.now number (row_of blocks.now number) self }
        ensures { IsRow blocks.now (number + 1) (row_of blocks.now number) result }
    {
        let granule = start / GRANULE % 64;
        let apart = is_apart(blocks, number, start);
        Row {
            bits: self.bits + (1 << granule),
            first: self.first,
            apart: self.apart && apart,
        }
    }

    /// Where an address of the row is among the blocks.
    #[inline(always)]
    fn place(&self, blocks: &[Block], address: u64) -> AddressPlace
        requires row { IsRow blocks.now (length blocks.now) (address / 1024) self.now }
        requires aligned { AreAligned blocks.now }
        ensures { IsAddressPlace blocks.now address result }
    {
        let granule = address / GRANULE % 64;
        let count = self.first as usize + ones_below(self.bits, granule + 1);
        if self.apart && address % GRANULE == 0 && (self.bits >> granule) % 2 == 1 {
            return AddressPlace::Start(count - 1);
        }
        AddressPlace::After(count)
    }
}

/// Rows of addresses in runs. The rows of a run follow one another.
///
/// There are about as many rows as blocks at most, and no more runs than blocks.
#[derive(Drop)]
pub(crate) struct Ranks {
    /// The number of each run's first row.
    numbers: Vec<u64>,
    /// Where in the list of rows each run begins.
    places: Vec<usize>,
    rows: Vec<Row>,
    /// The number of the row after the last.
    next: u64,
}

impl Ranks {
    /// The rows for blocks by ascending start, and none if a block doesn't start at a multiple of 16. That is tested here
    /// since going over the blocks once more takes long.
    pub(crate) fn new(alloc: Global, blocks: &[Block]) -> Result<Option<Ranks>, AllocError>
        requires disjoint { AreDisjoint blocks.now }
        requires few { length blocks.now < 2 ^ 32 }
        ensures { IfOk result (λ found.
            IfSome found (λ ranks. AreAligned blocks.now × IsRanked blocks.now ranks)) }
    {
        let mut ranks = Ranks {
            numbers: Vec::new(alloc),
            places: Vec::new(alloc),
            rows: Vec::new(alloc),
            next: 0,
        };
        for number in 0..blocks.len() {
            let start = blocks[number].start;
            if start % GRANULE != 0 {
                return Ok(None);
            }
            ranks.add(blocks, number, start)?;
        }
        Ok(Some(ranks))
    }

    /// Adds the block with the number, the first that isn't in the rows yet. It starts at `start`.
    fn add(&mut self, blocks: &[Block], number: usize, start: u64) -> Result<(), AllocError>
        requires disjoint { AreDisjoint blocks.now }
        requires inside { number < length blocks.now }
        requires here { start ≡ start_of blocks.now number }
        requires aligned { start % 16 ≡ 0 }
        requires few { length blocks.now < 2 ^ 32 }
        requires made { IsMadeTo blocks.now number self.old }
        requires rest { self.old.next ≤ row_of blocks.now number + 1 }
        ensures { IfOk result (λ unit.
            IsMadeTo blocks.now (number + 1) self.new
            × (self.new.next ≡ row_of blocks.now number + 1)) }
    {
        self.reach(blocks, number, start)?;
        let last = self.rows.len() - 1;
        let row = &mut self.rows[last];
        *row = row.with(blocks, number, start);
        Ok(())
    }

    /// Makes the row in which the block with the number starts, unless it is there. It is in the last run if that isn't far.
    fn reach(&mut self, blocks: &[Block], number: usize, start: u64) -> Result<(), AllocError>
        requires inside { number < length blocks.now }
        requires here { start ≡ start_of blocks.now number }
        requires few { length blocks.now < 2 ^ 32 }
        requires made { IsMadeTo blocks.now number self.old }
        requires rest { self.old.next ≤ row_of blocks.now number + 1 }
        ensures { IfOk result (λ unit.
            IsMadeTo blocks.now number self.new × (self.new.next ≡ row_of blocks.now number + 1)) }
    {
        let row = start / ROW;
        if row < self.next {
            return Ok(());
        }
        let is_near = row - self.next <= GAP && self.rows.len() <= number;
        let first = number as u32;
        if self.numbers.is_empty() || !is_near {
            return self.open(blocks, row, first);
        }
        while self.next <= row {
            self.pad(blocks, first)?;
        }
        Ok(())
    }

    /// Makes one more row of the last run. `first` blocks start before it.
    fn pad(&mut self, blocks: &[Block], first: u32) -> Result<(), AllocError>
        requires made { IsMadeTo blocks.now first self.old }
        requires some { 0 < length self.old.numbers.items }
        requires fits { self.old.next + 1 < 2 ^ 64 }
        ensures made { IfOk result (λ unit. IsMadeTo blocks.now first self.new) }
        ensures some { IfOk result (λ unit. 0 < length self.new.numbers.items) }
        ensures next { IfOk result (λ unit. self.new.next ≡ self.old.next + 1) }
    {
        self.rows.push(Row {
            bits: 0,
            first,
            apart: true,
        })?;
        self.next += 1;
        Ok(())
    }

    /// Begins a run with the row with the number. `first` blocks start before it.
    fn open(&mut self, blocks: &[Block], row: u64, first: u32) -> Result<(), AllocError>
        requires made { IsMadeTo blocks.now first self.old }
        requires rest { self.old.next ≤ row }
        requires fits { row + 1 < 2 ^ 64 }
        ensures { IfOk result (λ unit.
            IsMadeTo blocks.now first self.new × (self.new.next ≡ row + 1)) }
    {
        self.numbers.push(row)?;
        self.places.push(self.rows.len())?;
        self.rows.push(Row {
            bits: 0,
            first,
            apart: true,
        })?;
        self.next = row + 1;
        Ok(())
    }

    /// Where the address is among the blocks.
    #[inline(always)]
    pub(crate) fn place(&self, blocks: &[Block], address: u64) -> AddressPlace
        requires ranked { IsRanked blocks.now self.now }
        requires aligned { AreAligned blocks.now }
        ensures { IsAddressPlace blocks.now address result }
    {
        let row = address / ROW;
        let runs = count_pages(self.numbers.as_slice(), row);
        if runs == 0 {
            return AddressPlace::After(0);
        }
        let run = runs - 1;
        let place = self.places[run];
        let end = self.end(run);
        let distance = row - self.numbers[run];
        if distance < (end - place) as u64 {
            return self.rows[place + distance as usize].place(blocks, address);
        }
        let row = self.rows[end - 1];
        AddressPlace::After(row.first as usize + ones_below(row.bits, 64))
    }

    /// How many of the words are starts of blocks, as far as the run tells that has the row of the first of them.
    pub(crate) fn count_starts(&self, blocks: &[Block], words: &[u64]) -> usize
        requires ranked { IsRanked blocks.now self.now }
        requires aligned { AreAligned blocks.now }
        ensures { (hits : ℕ → List ℕ) → FindsStarts blocks.now hits
            → result ≤ length (flat_map hits words.now) }
    {
        let Some(word) = words.first() else {
            return 0;
        };
        let runs = count_pages(self.numbers.as_slice(), *word / ROW);
        if runs == 0 {
            return 0;
        }
        let run = runs - 1;
        let rows = &self.rows[self.places[run]..self.end(run)];
        count_in(rows, self.numbers[run], blocks, words)
    }

    /// Where the run ends in the list of rows.
    #[inline(always)]
    fn end(&self, run: usize) -> usize
        requires inside { run < length self.now.numbers.items }
        requires paired { length self.now.places.items ≡ length self.now.numbers.items }
        ensures { result ≡ end_of self.now.places.items (length self.now.rows.items) run }
    {
        if run + 1 == self.places.len() {
            return self.rows.len();
        }
        self.places[run + 1]
    }
}

/// Whether each block before the one with the number ends before that one begins, at `start`.
fn is_apart(blocks: &[Block], number: usize, start: u64) -> bool
    requires disjoint { AreDisjoint blocks.now }
    requires inside { number < length blocks.now }
    requires here { start ≡ start_of blocks.now number }
    ensures { IsTrue result → IsApart blocks.now number }
{
    if number == 0 {
        return true;
    }
    let before = blocks[number - 1];
    start - before.start > before.size
}

/// How many of the words are starts of blocks, as far as these rows tell, which follow one another from the row with the number
/// on. It stands by itself so that little is done between one word and the next: a processor reads ahead so far only.
#[inline(never)]
fn count_in(rows: &[Row], number: u64, blocks: &[Block], words: &[u64]) -> usize
    requires rows { AreRowsFrom blocks.now number rows.now }
    requires aligned { AreAligned blocks.now }
    ensures { (hits : ℕ → List ℕ) → FindsStarts blocks.now hits
        → result ≤ length (flat_map hits words.now) }
{
    let mut count = 0;
    for word in words {
        count += usize::from(is_start(rows, number, blocks, *word));
    }
    count
}

/// Whether the word is the start of a block, as far as these rows tell.
#[inline(always)]
fn is_start(rows: &[Row], number: u64, blocks: &[Block], word: u64) -> bool
    requires rows { AreRowsFrom blocks.now number rows.now }
    requires aligned { AreAligned blocks.now }
    ensures { IsTrue result → (block : ℕ) × IsOnlyStart blocks.now word block }
{
    let Some(distance) = (word / ROW).checked_sub(number) else {
        return false;
    };
    if distance >= rows.len() as u64 {
        return false;
    }
    match rows[distance as usize].place(blocks, word) {
        AddressPlace::Start(_) => true,
        AddressPlace::After(_) => false,
    }
}

/// How many of the `many` lowest bits are set.
#[inline(always)]
fn ones_below(bits: u64, many: u64) -> usize
    requires some { 0 < many }
    requires within { many ≤ 64 }
    ensures { result ≡ count_ones (bits % 2 ^ many) }
{
    (bits << (64 - many)).count_ones() as usize
}
