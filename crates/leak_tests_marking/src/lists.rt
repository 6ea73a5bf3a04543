//! Blocks that lead to blocks, as lists.
ghost use Rattle.std.specs.Prelude.{◌≡◌, ℕ, ◌<◌, [], length, map, slice_index_or, IsTrue};
ghost use Rattle.leak_marks.specs.Lists.{Has};

use leak_without::{HasEdges, mark_without, mark_without_set};
use std::alloc::{AllocError, Global};
use std::process::Abort;

/// What each block leads to. Each target is a block.
#[derive(Drop)]
pub struct Lists<'a> {
    lists: &'a [&'a [u32]],
    blocks: u32,
    ghost count: { length (map (λ list. list.now) lists.now) ≡ blocks },
    ghost within: { (p b : ℕ) → Has (slice_index_or (map (λ list. list.now) lists.now) p []) b
        → b < length (map (λ list. list.now) lists.now) },
}

impl<'a> HasEdges for Lists<'a> {
    ghost targets = { λ l. map (λ list. list.now) l.lists.now };

    ghost inside = { λ l. l.within };

    fn blocks(&self) -> u32 {
        self.blocks
    }

    fn targets(&self, block: u32) -> &[u32] {
        self.lists[block as usize]
    }
}

/// Whether each of the targets is a block.
fn are_blocks(targets: &[u32], blocks: u32) -> bool
    ensures { IsTrue result → (b : ℕ) → Has targets.now b → b < blocks }
{
    for target in targets {
        if *target >= blocks {
            return false;
        }
    }
    true
}

/// The lists, unless a target is no block.
fn lists_of<'a>(lists: &'a [&'a [u32]]) -> Option<Lists<'a>> {
    if lists.len() > u32::MAX as usize {
        return None;
    }
    let blocks = lists.len() as u32;
    for list in lists {
        if !are_blocks(list, blocks) {
            return None;
        }
    }
    Some(Lists { lists, blocks })
}

/// The words of all blocks, by their numbers.
pub fn words_of(
    rt: &impl Abort,
    alloc: Global,
    lists: &[&[u32]],
    first: &[u32],
    numbers: &[u32],
    from: u32,
) -> Result<Vec<u64>, AllocError> {
    let Some(linked) = lists_of(lists) else {
        panic!(rt; "a target is no block")
    };
    assert!(rt; are_blocks(first, linked.blocks));
    assert!(rt; numbers.len() == linked.blocks as usize);
    mark_without(alloc, &linked, first, numbers, from)
}

/// The words of all blocks, by one set.
pub fn words_of_set(
    rt: &impl Abort,
    alloc: Global,
    lists: &[&[u32]],
    first: &[u32],
    set: &[bool],
) -> Result<Vec<u64>, AllocError> {
    let Some(linked) = lists_of(lists) else {
        panic!(rt; "a target is no block")
    };
    assert!(rt; are_blocks(first, linked.blocks));
    assert!(rt; set.len() == linked.blocks as usize);
    mark_without_set(alloc, &linked, first, set)
}
