//! Lists what words lead to.
ghost use Rattle.std.specs.Prelude.{◌≡◌, ◌<◌, ◌≤◌, ◌+◌, ◌++◌, ◌∷◌, [], ◌^◌, length, take, IfOk, IsTrue, IsFalse};
ghost use Rattle.std.specs.List.{AllByRecursion};
ghost use Rattle.leak_index.specs.Hits.{Index, hits_in, hits_of};
ghost use Rattle.leak_scan.specs.Targets.{targets_of};
ghost use Rattle.leak_scan.specs.Positions.{words_in};

use crate::first::split_word;
use leak_index::{Hits, Lookup, hits_are_blocks};
use std::alloc::AllocError;

/// Appends what the words of a run lead to, unless that makes more than `room`. Each 8 bytes are a word.
pub fn list_run<L: Lookup>(
    lookup: &L,
    run: &[u8],
    room: usize,
    targets: &mut Vec<u32>,
) -> Result<bool, AllocError>
    requires few { length (L.index lookup.now).blocks < 2 ^ 32 }
    requires within { length targets.old.items ≤ room }
    ensures within { length targets.new.items ≤ room }
    ensures kept { take (length targets.old.items) targets.new.items ≡ targets.old.items }
    ensures listed { IfOk result (λ fits. IsTrue fits →
        targets.new.items ≡ targets.old.items
        ++ targets_of (L.index lookup.now) (words_in run.now)) }
    ensures over { let led = targets_of (L.index lookup.now) (words_in run.now) in
        IfOk result (λ fits. IsFalse fits → room < length targets.old.items + length led) }
{
    // (a law, for the proof: each hit is the number of a block)
    hits_are_blocks();
    let skips = zeros_lead_nowhere(lookup);
    let mut rest = past_zeros(run, skips);
    while rest.len() >= 8 {
        let (word, others) = split_word(rest);
        if !list_hits(lookup.hits(word), room, targets)? {
            return Ok(false);
        }
        rest = past_zeros(others, skips);
    }
    Ok(true)
}

/// Whether 0 leads to no block.
fn zeros_lead_nowhere<L: Lookup>(lookup: &L) -> bool
    ensures { IsTrue result → hits_of (L.index lookup.now) 0 ≡ [] }
{
    match lookup.hits(0) {
        Hits::Zero => true,
        _ => false,
    }
}

/// The bytes of a run from its first word on that isn't 0, if those before it are to be passed over.
fn past_zeros(run: &[u8], skips: bool) -> &[u8]
    ensures led { (index : Index) → (IsTrue skips → hits_of index 0 ≡ [])
        → targets_of index (words_in result.now) ≡ targets_of index (words_in run.now) }
    ensures shorter { length result.now ≤ length run.now }
{
    let mut rest = run;
    while skips && rest.len() >= 8 {
        let (word, others) = split_word(rest);
        if word != 0 {
            return rest;
        }
        rest = others;
    }
    rest
}

/// Appends what the words of a list lead to, unless that makes more than `room`.
pub fn list_words<L: Lookup>(
    lookup: &L,
    words: &[u64],
    room: usize,
    targets: &mut Vec<u32>,
) -> Result<bool, AllocError>
    requires few { length (L.index lookup.now).blocks < 2 ^ 32 }
    requires within { length targets.old.items ≤ room }
    ensures within { length targets.new.items ≤ room }
    ensures kept { take (length targets.old.items) targets.new.items ≡ targets.old.items }
    ensures listed { IfOk result (λ fits. IsTrue fits →
        targets.new.items ≡ targets.old.items ++ targets_of (L.index lookup.now) words.now) }
    ensures over { let led = targets_of (L.index lookup.now) words.now in
        IfOk result (λ fits. IsFalse fits → room < length targets.old.items + length led) }
{
    // (a law, for the proof: each hit is the number of a block)
    hits_are_blocks();
    for word in words {
        if !list_hits(lookup.hits(*word), room, targets)? {
            return Ok(false);
        }
    }
    Ok(true)
}

/// Appends the blocks that a word leads to.
#[inline(always)]
fn list_hits(hits: Hits, room: usize, targets: &mut Vec<u32>) -> Result<bool, AllocError>
    requires small { AllByRecursion (λ block. block < 2 ^ 32) (hits_in hits) }
    requires within { length targets.old.items ≤ room }
    ensures within { length targets.new.items ≤ room }
    ensures kept { take (length targets.old.items) targets.new.items ≡ targets.old.items }
    ensures listed { IfOk result
        (λ fits. IsTrue fits → targets.new.items ≡ targets.old.items ++ hits_in hits) }
    ensures over { IfOk result
        (λ fits. IsFalse fits → room < length targets.old.items + length (hits_in hits)) }
{
    match hits {
        Hits::Zero => Ok(true),
        Hits::One(block) => list_target(block, room, targets),
        Hits::Two(first, second) => {
            if !list_target(first, room, targets)? {
                return Ok(false);
            }
            list_target(second, room, targets)
        }
    }
}

/// Appends a block.
#[inline(always)]
fn list_target(block: usize, room: usize, targets: &mut Vec<u32>) -> Result<bool, AllocError>
    requires small { block < 2 ^ 32 }
    requires within { length targets.old.items ≤ room }
    ensures within { length targets.new.items ≤ room }
    ensures kept { take (length targets.old.items) targets.new.items ≡ targets.old.items }
    ensures listed { IfOk result
        (λ fits. IsTrue fits → targets.new.items ≡ targets.old.items ++ block ∷ []) }
    ensures over { IfOk result (λ fits. IsFalse fits → room ≤ length targets.old.items) }
{
    if targets.len() >= room {
        return Ok(false);
    }
    targets.push(block as u32)?;
    Ok(true)
}
