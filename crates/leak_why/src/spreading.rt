//! Finding what root words lead to, and then what the found blocks lead to, breadth first.
ghost use Rattle.std.specs.Prelude.{◌≡◌, ℕ, ◌<◌, [], ◌∷◌, length, IfOk};
ghost use Rattle.leak_marks.specs.Lists.{Has};
ghost use Rattle.leak_roots.specs.Places.{Places};
ghost use Rattle.leak_pool.specs.Alone.{AreMarks};
ghost use Rattle.leak_why.specs.ReachedBlocks.{AreFound, AreRooted, AreFollowed, AreWhole, blocks_of};

use crate::reached_block::{FirstLead, Origin, ReachedBlock};
use leak_blocks::{Block, Live};
use leak_elf::Words;
use leak_index::Lookup;
use leak_pool::of_memory;
use leak_roots::Roots;
use leak_scan::Targets;
use std::alloc::{AllocError, Global};

/// All blocks that a chain of words reaches, in the order of their distance from the roots.
pub(crate) fn spread<W: Words, L: Lookup>(
    alloc: Global,
    words: &W,
    lookup: &L,
    roots: &Roots,
    live: &Live,
) -> Result<Vec<ReachedBlock>, AllocError>
    requires { (L.index lookup.now).blocks ≡ live.now.blocks }
    ensures { IfOk result (λ entries.
        AreWhole (W.word_at words.now) (L.index lookup.now) roots.now entries.items) }
{
    let blocks = live.blocks();
    let mut seen = vec![in alloc; false; blocks.len()]?;
    let mut entries = Vec::new(alloc);
    let marks = seen.as_mut_slice();
    find_first(words, lookup, live, roots, marks, &mut entries)?;
    find_others(words, lookup, blocks, marks, &mut entries)?;
    Ok(entries)
}

/// Finds what the root words lead to.
fn find_first<W: Words, L: Lookup>(
    words: &W,
    lookup: &L,
    live: &Live,
    roots: &Roots,
    seen: &mut [bool],
    entries: &mut Vec<ReachedBlock>,
) -> Result<(), AllocError>
    requires same_blocks { (L.index lookup.now).blocks ≡ live.now.blocks }
    requires blocks { length seen.old ≡ length (L.index lookup.now).blocks }
    requires none { entries.old.items ≡ [] }
    requires marks { AreMarks seen.old (blocks_of entries.old.items) }
    ensures marks { AreMarks seen.new (blocks_of entries.new.items) }
    ensures done { IfOk result (λ _.
        AreRooted (W.word_at words.now) (L.index lookup.now) roots.now entries.new.items) }
{
    let targets = Targets::of_registers(words, roots.registers(), lookup);
    find_all(targets, FirstLead::Root(Origin::Registers), seen, entries)?;
    for (i, range) in roots.memory().iter().enumerate() {
        let targets = of_memory(words, lookup, live, roots, *range);
        find_all(targets, FirstLead::Root(Origin::Range(i)), seen, entries)?;
    }
    Ok(())
}

/// Finds what the found blocks lead to, in the order in which they were found.
fn find_others<W: Words, L: Lookup>(
    words: &W,
    lookup: &L,
    blocks: &[Block],
    seen: &mut [bool],
    entries: &mut Vec<ReachedBlock>,
) -> Result<(), AllocError>
    requires blocks { (L.index lookup.now).blocks ≡ blocks.now }
    requires long { length seen.old ≡ length blocks.now }
    requires marks { AreMarks seen.old (blocks_of entries.old.items) }
    ensures marks { AreMarks seen.new (blocks_of entries.new.items) }
    ensures done { let w = W.word_at words.now in let i = L.index lookup.now in
        IfOk result (λ _. (p : Places) → AreRooted w i p entries.old.items
        → AreFollowed w i p entries.new.items (length entries.new.items)) }
{
    let mut scanned = 0;
    'follow: while scanned < entries.len() {
        let block = &blocks[entries[scanned].block];
        let targets = Targets::of_block(words, lookup, block);
        find_all(targets, FirstLead::Earlier(scanned), seen, entries)?;
        scanned += 1;
    }
    Ok(())
}

/// Adds the targets that were not seen.
fn find_all<W: Words, L: Lookup>(
    targets: Targets<'_, W, L>,
    source: FirstLead,
    seen: &mut [bool],
    entries: &mut Vec<ReachedBlock>,
) -> Result<(), AllocError>
    requires inside { (b : ℕ) → Has targets b → b < length seen.old }
    requires marks { AreMarks seen.old (blocks_of entries.old.items) }
    ensures marks { AreMarks seen.new (blocks_of entries.new.items) }
    ensures done { IfOk result (λ _.
        AreFound source targets.entry entries.old.items entries.new.items) }
{
    for block in targets {
        find(seen, entries, ReachedBlock { block, source })?;
    }
    Ok(())
}

/// Adds a block, unless it was seen.
fn find(
    seen: &mut [bool],
    entries: &mut Vec<ReachedBlock>,
    entry: ReachedBlock,
) -> Result<(), AllocError>
    requires block { entry.block < length seen.old }
    requires marks { AreMarks seen.old (blocks_of entries.old.items) }
    ensures marks { AreMarks seen.new (blocks_of entries.new.items) }
    ensures done { IfOk result (λ _.
        AreFound entry.source (entry.block ∷ []) entries.old.items entries.new.items) }
{
    if seen[entry.block] {
        return Ok(());
    }
    entries.push(entry)?;
    seen[entry.block] = true;
    Ok(())
}
