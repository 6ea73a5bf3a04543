//! Those root words in memory that can lead to blocks. As for rows, the caller starts one worker after another.
ghost use Rattle.std.specs.Prelude.{◌≡◌, filter, IfOk};
ghost use Rattle.std.specs.List.{All};
ghost use Rattle.leak_roots.specs.Places.{IsRange};
ghost use Rattle.leak_pool.specs.Leading.{leading, leads};
ghost use Rattle.leak_pool.specs.Marking.{led_by_roots};

use crate::leading_found::leads_with_links;
use crate::scope::of_memory;
use leak_blocks::Live;
use leak_elf::Words;
use leak_index::Lookup;
use leak_roots::Roots;
use leak_team::Team;
use std::alloc::{AllocError, Global};
use std::thread::{Threads, join};

/// How many ranges a share has at least. Own rule: they take some times as long as the start of a thread.
const LEAST: usize = 4_096;

/// Whether a range leads to a block.
fn does_lead<W: Words, L: Lookup>(
    words: &W,
    lookup: &L,
    live: &Live,
    roots: &Roots,
    range: (u64, u64),
) -> bool
    requires same_blocks { (L.index lookup.now).blocks ≡ live.now.blocks }
    requires range { IsRange range }
    ensures { result ≡
        leads roots.now.skips_links (W.word_at words.now) (L.index lookup.now) range }
{
    if !roots.skips_links() {
        return leads_with_links(words, lookup, range);
    }
    of_memory(words, lookup, live, roots, range)
        .next()
        .is_some()
}

/// Those of the ranges that lead to a block.
fn leading_of<W: Words, L: Lookup>(
    alloc: Global,
    words: &W,
    lookup: &L,
    live: &Live,
    roots: &Roots,
    ranges: &[(u64, u64)],
) -> Result<Vec<(u64, u64)>, AllocError>
    requires same_blocks { (L.index lookup.now).blocks ≡ live.now.blocks }
    requires ranges { All IsRange ranges.now }
    ensures { let leads = leads roots.now.skips_links (W.word_at words.now) (L.index lookup.now) in
        IfOk result (λ kept. kept.items ≡ filter leads ranges.now) }
{
    let mut kept = Vec::new(alloc);
    for range in ranges {
        if does_lead(words, lookup, live, roots, *range) {
            kept.push(*range)?;
        }
    }
    Ok(kept)
}

/// The same, by the team: the last share is asked in a new thread, those before it from here.
fn leading_shares<R: Threads + Sync, W: Words + Sync, L: Lookup + Sync>(
    team: &Team<'_, R>,
    words: &W,
    lookup: &L,
    live: &Live,
    roots: &Roots,
    ranges: &[(u64, u64)],
) -> Result<Vec<(u64, u64)>, AllocError>
    requires same_blocks { (L.index lookup.now).blocks ≡ live.now.blocks }
    requires ranges { All IsRange ranges.now }
    ensures { let leads = leads roots.now.skips_links (W.word_at words.now) (L.index lookup.now) in
        IfOk result (λ kept. kept.items ≡ filter leads ranges.now) }
{
    let alloc = team.alloc;
    if team.workers < 2 {
        return leading_of(alloc, words, lookup, live, roots, ranges);
    }
    let (front, back) = ranges.split_at(ranges.len() - ranges.len() / team.workers as usize);
    let fewer = team.of(team.workers - 1);
    let of_back = move || -> Result<Vec<(u64, u64)>, AllocError>
        requires { ((L.index lookup.now).blocks ≡ live.now.blocks) × All IsRange back.now }
        ensures { let word_at = W.word_at words.entry.now in
            let leads = leads roots.entry.now.skips_links word_at (L.index lookup.entry.now) in
            IfOk result (λ kept. kept.items ≡ filter leads back.entry.now) }
    { leading_of(alloc, words, lookup, live, roots, back) };
    let of_front = move || -> Result<Vec<(u64, u64)>, AllocError>
        requires { ((L.index lookup.now).blocks ≡ live.now.blocks) × All IsRange front.now }
        ensures { let word_at = W.word_at words.entry.now in
            let leads = leads roots.entry.now.skips_links word_at (L.index lookup.entry.now) in
            IfOk result (λ kept. kept.items ≡ filter leads front.entry.now) }
    { leading_shares(&fewer, words, lookup, live, roots, front) };
    let (last, others) = join(team.rt, of_back, of_front);
    let mut kept = others?;
    let mut last = last?;
    kept.append(&mut last)?;
    Ok(kept)
}

/// The same root words without the ranges of memory that lead to no block. What root words lead to stays the same, in the
/// same order, however many workers there are. It fails only if memory is refused: a thread that can't be had is no error.
///
/// There are as many ranges as gaps between blocks, and hardly one of them leads to a block.
pub fn leading_roots<R: Threads + Sync, W: Words + Sync, L: Lookup + Sync>(
    team: &Team<'_, R>,
    words: &W,
    lookup: &L,
    roots: Roots,
    live: &Live,
) -> Result<Roots, AllocError>
    requires same_blocks { (L.index lookup.now).blocks ≡ live.now.blocks }
    ensures value { IfOk result (λ kept.
        kept ≡ leading (W.word_at words.now) (L.index lookup.now) roots) }
    ensures led { let w = W.word_at words.now in let i = L.index lookup.now in
        IfOk result (λ kept. led_by_roots w i kept ≡ led_by_roots w i roots) }
{
    let ranges = roots.memory();
    let shares = (ranges.len() / LEAST).min(team.workers as usize) as u32;
    let busy = team.of(shares);
    let memory = leading_shares(&busy, words, lookup, live, &roots, ranges)?;
    Ok(roots.with_memory(memory))
}
