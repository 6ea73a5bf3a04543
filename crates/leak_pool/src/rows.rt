//! What blocks lead to, in rows that workers make side by side. As for a round, the caller starts one after another.
ghost use Rattle.std.specs.Prelude.{◌≡◌, ◌+◌, ◌*◌, ◌<◌, ◌≤◌, ◌^◌, ◌++◌, ℕ, List, length, map, IfOk, IfSome, IfNone, IsTrue, IsFalse};
ghost use Rattle.std.specs.Fork.{slice_chunk};
ghost use Rattle.std.specs.Int.{div_ceil};
ghost use Rattle.std.specs.List.{All};
ghost use Rattle.leak_marks.specs.Lists.{Has};
ghost use Rattle.leak_scan.specs.Targets.{block_targets, block_words, targets_of};
ghost use Rattle.leak_pool.specs.Edges.{AreEdges, AreRowsOrOver, CanList, IsOver, IsRowOrOver, kept_count, target_count};
ghost use Rattle.leak_pool.specs.Scopes.{all_targets};

use leak_blocks::Block;
use leak_elf::Words;
use leak_index::Lookup;
use leak_scan::{BlockRuns, Targets, kept_between, kept_in_block, list_run, list_words};
use std::alloc::{AllocError, Global};
use std::thread::{Threads, join};

/// Of how many blocks the words are asked for before those of the first are looked up.
const AHEAD: usize = 32;
/// And of how many words.
const MANY: usize = 256;

/// What some blocks lead to, block by block.
#[derive(Drop)]
pub(crate) struct Rows {
    /// Where the targets of each block begin, and at last where those of the last block end.
    pub(crate) starts: Vec<u32>,
    /// The targets of all of them, one block's after another's.
    pub(crate) targets: Vec<u32>,
}

/// Appends the targets of a block, unless that makes more than `room`.
fn list_targets<W: Words, L: Lookup>(
    found: Targets<'_, W, L>,
    room: usize,
    targets: &mut Vec<u32>,
) -> Result<bool, AllocError>
    requires small { (b : ℕ) → Has found b → b < 2 ^ 32 }
    requires within { length targets.old.items ≤ room }
    ensures within { length targets.new.items ≤ room }
    ensures listed { IfOk result
        (λ fits. IsTrue fits → targets.new.items ≡ targets.old.items ++ found.entry) }
    ensures over { IfOk result
        (λ fits. IsFalse fits → room < length targets.old.items + length found.entry) }
{
    for block in found {
        if targets.len() == room {
            return Ok(false);
        }
        targets.push(block as u32)?;
    }
    Ok(true)
}

/// Appends what a block leads to, unless that makes more than `room`.
fn list_block<W: Words, L: Lookup>(
    runs: &mut BlockRuns<'_, W>,
    lookup: &L,
    block: &Block,
    room: usize,
    targets: &mut Vec<u32>,
) -> Result<bool, AllocError>
    requires few { length (L.index lookup.now).blocks < 2 ^ 32 }
    requires within { length targets.old.items ≤ room }
    ensures same { runs.new.words.now ≡ runs.old.words.now }
    ensures within { length targets.new.items ≤ room }
    ensures listed { let words = block_words (W.word_at runs.old.words.now) block.now in
        let led = targets_of (L.index lookup.now) words in
        IfOk result (λ fits. IsTrue fits → targets.new.items ≡ targets.old.items ++ led) }
    ensures over { let words = block_words (W.word_at runs.old.words.now) block.now in
        let led = targets_of (L.index lookup.now) words in
        IfOk result (λ fits. IsFalse fits → room < length targets.old.items + length led) }
{
    if let Some(bytes) = runs.of_block(block) {
        return list_run(lookup, bytes, room, targets);
    }
    if let Some(kept) = kept_in_block(runs.words, lookup, block) {
        return list_words(lookup, kept, room, targets);
    }
    let found = Targets::of_block(runs.words, lookup, block);
    list_targets(found, room, targets)
}

/// How many targets the first of the blocks have at the least, as far as the memory has their words as one slice. To count
/// them, the lookup reads what it knows of all these words; if it read that word by word, a processor would wait each time. Of a
/// long slice the first words will do.
fn count_ahead<W: Words, L: Lookup>(words: &W, lookup: &L, blocks: &[Block]) -> usize {
    let (next, _) = blocks.split_at(blocks.len().min(AHEAD));
    let (Some(first), Some(last)) = (next.first(), next.last()) else {
        return 0;
    };
    let end = last.start.saturating_add(last.size);
    match kept_between(words, lookup, first.start, end) {
        Some(kept) => lookup.count_leading(&kept[..kept.len().min(MANY)]),
        None => 0,
    }
}

/// Makes room for targets of the blocks that are left, once for each so many of them.
#[inline(always)]
fn reserve_ahead<W: Words, L: Lookup>(
    words: &W,
    lookup: &L,
    left: &[Block],
    targets: &mut Vec<u32>,
) -> Result<(), AllocError>
    ensures { targets.new.items ≡ targets.old.items }
{
    if left.len() % AHEAD != 0 {
        return Ok(());
    }
    targets.reserve(count_ahead(words, lookup, left))
}

/// Appends what a block leads to, as [`list_block`] does, after a look ahead at the blocks that are left.
#[inline(always)]
fn list_next<W: Words, L: Lookup>(
    runs: &mut BlockRuns<'_, W>,
    lookup: &L,
    block: &Block,
    left: &[Block],
    room: usize,
    targets: &mut Vec<u32>,
) -> Result<bool, AllocError>
    requires few { length (L.index lookup.now).blocks < 2 ^ 32 }
    requires within { length targets.old.items ≤ room }
    ensures same { runs.new.words.now ≡ runs.old.words.now }
    ensures within { length targets.new.items ≤ room }
    ensures listed { let words = block_words (W.word_at runs.old.words.now) block.now in
        let led = targets_of (L.index lookup.now) words in
        IfOk result (λ fits. IsTrue fits → targets.new.items ≡ targets.old.items ++ led) }
    ensures over { let words = block_words (W.word_at runs.old.words.now) block.now in
        let led = targets_of (L.index lookup.now) words in
        IfOk result (λ fits. IsFalse fits → room < length targets.old.items + length led) }
{
    reserve_ahead(runs.words, lookup, left, targets)?;
    list_block(runs, lookup, block, room, targets)
}

/// What the blocks lead to, unless they lead to more than `room`.
fn rows_of<W: Words, L: Lookup>(
    alloc: Global,
    words: &W,
    lookup: &L,
    blocks: &[Block],
    room: u32,
) -> Result<Option<Rows>, AllocError>
    requires few { length (L.index lookup.now).blocks < 2 ^ 32 }
    ensures { let targets = map (block_targets (W.word_at words.now) (L.index lookup.now))
        blocks.now in
        IfOk result (IsRowOrOver targets room) }
{
    let mut starts = Vec::new(alloc);
    starts.push(0)?;
    starts.reserve(blocks.len())?;
    let mut targets = Vec::with_capacity(alloc, MANY)?;
    let mut runs = BlockRuns::new(words);
    for k in 0..blocks.len() {
        let left = &blocks[k..];
        if !list_next(
            &mut runs,
            lookup,
            &blocks[k],
            left,
            room as usize,
            &mut targets,
        )? {
            return Ok(None);
        }
        starts.push(targets.len() as u32)?;
    }
    Ok(Some(Rows { starts, targets }))
}

/// How many rows there are, and how large they are.
#[derive(Clone, Copy)]
struct Shape {
    /// How many rows, from that of the first blocks on.
    count: usize,
    /// How many blocks each row has, except that of the last blocks.
    size: usize,
    /// How many targets each has room for.
    room: u32,
}

/// The row after those before it, unless its blocks lead to more than it has room for.
fn row_after<W: Words, L: Lookup>(
    alloc: Global,
    words: &W,
    lookup: &L,
    blocks: &[Block],
    before: Shape,
) -> Result<Option<Rows>, AllocError>
    requires { CanList (L.index lookup.now) blocks.now before.size (before.count + 1) }
    ensures { let targets = all_targets (W.word_at words.now) (L.index lookup.now) in
        IfOk result (IsRowOrOver (slice_chunk targets before.size before.count) before.room) }
{
    let rest = &blocks[before.count * before.size..];
    let part = &rest[..before.size.min(rest.len())];
    rows_of(alloc, words, lookup, part, before.room)
}

/// The rows and the one after them, unless one is missing.
fn with_row(
    rows: Result<Option<Vec<Rows>>, AllocError>,
    row: Result<Option<Rows>, AllocError>,
) -> Result<Option<Vec<Rows>>, AllocError>
    ensures { (targets : List (List ℕ)) (size room count : ℕ) → count * size < length targets
        → IfOk rows (AreRowsOrOver targets size room count)
        → IfOk row (IsRowOrOver (slice_chunk targets size count) room)
        → IfOk result (AreRowsOrOver targets size room (count + 1)) }
{
    let Some(mut all) = rows? else {
        return Ok(None);
    };
    let Some(last) = row? else {
        return Ok(None);
    };
    all.push(last)?;
    Ok(Some(all))
}

/// The first rows: the last of them is listed in a new thread, those before it from here.
fn first_rows<R: Threads + Sync, W: Words + Sync, L: Lookup + Sync>(
    rt: &R,
    alloc: Global,
    words: &W,
    lookup: &L,
    blocks: &[Block],
    shape: Shape,
) -> Result<Option<Vec<Rows>>, AllocError>
    requires { CanList (L.index lookup.now) blocks.now shape.size shape.count }
    ensures { let targets = all_targets (W.word_at words.now) (L.index lookup.now) in
        IfOk result (AreRowsOrOver targets shape.size shape.room shape.count) }
{
    if shape.count == 0 {
        return Ok(Some(Vec::new(alloc)));
    }
    let mut before = shape;
    before.count -= 1;
    if before.count == 0 {
        let none = Ok(Some(Vec::new(alloc)));
        return with_row(none, row_after(alloc, words, lookup, blocks, before));
    }
    let (row, rows) = join(
        rt,
        move || -> Result<Option<Rows>, AllocError>
            requires { CanList (L.index lookup.now) blocks.now before.size (before.count + 1) }
            ensures { let word_at = W.word_at words.entry.now in
                let targets = all_targets word_at (L.index lookup.entry.now) in
                let chunk = slice_chunk targets before.size before.count in
                IfOk result (IsRowOrOver chunk before.room) }
        { row_after(alloc, words, lookup, blocks, before) },
        move || -> Result<Option<Vec<Rows>>, AllocError>
            requires { CanList (L.index lookup.now) blocks.now before.size before.count }
            ensures { let word_at = W.word_at words.entry.now in
                let targets = all_targets word_at (L.index lookup.entry.now) in
                IfOk result (AreRowsOrOver targets before.size before.room before.count) }
        { first_rows(rt, alloc, words, lookup, blocks, before) },
    );
    with_row(rows, row)
}

/// What the blocks lead to, in rows of `size` blocks each, each made by a worker. None if a row has more than `room`
/// targets.
pub(crate) fn list_rows<R: Threads + Sync, W: Words + Sync, L: Lookup + Sync>(
    rt: &R,
    alloc: Global,
    words: &W,
    lookup: &L,
    blocks: &[Block],
    size: usize,
    room: u32,
) -> Result<Option<Vec<Rows>>, AllocError>
    requires some { 0 < size }
    requires same { (L.index lookup.now).blocks ≡ blocks.now }
    requires few { length blocks.now < 2 ^ 32 }
    ensures listed { let targets = all_targets (W.word_at words.now) (L.index lookup.now) in
        IfOk result (λ rows. IfSome rows (λ r. AreEdges targets size r.items)) }
    ensures exact { let targets = all_targets (W.word_at words.now) (L.index lookup.now) in
        IfOk result (λ rows. IfSome rows (λ r. kept_count r.items ≡ target_count targets)) }
    ensures count { IfOk result (λ rows.
        IfSome rows (λ r. length r.items ≡ div_ceil (length blocks.now) size)) }
    ensures room { IfOk result (λ rows.
        IfSome rows (λ r. All (λ row. length row.targets.items ≤ room) r.items)) }
    ensures over { let targets = all_targets (W.word_at words.now) (L.index lookup.now) in
        IfOk result (λ rows. IfNone rows (IsOver targets size room)) }
{
    let count = blocks.len().div_ceil(size);
    let shape = Shape { count, size, room };
    first_rows(rt, alloc, words, lookup, blocks, shape)
}
