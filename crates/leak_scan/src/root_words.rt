//! The first root word of a range that leads to a block, without malloc's links to free chunks.
ghost use Rattle.std.specs.Prelude.{◌≡◌, ◌≤◌, ◌++◌, []};
ghost use Rattle.leak_elf.specs.Words.{IsRun};
ghost use Rattle.leak_index.specs.Hits.{hits_in};
ghost use Rattle.leak_scan.specs.RootWords.{held_by, range_without_links};

use crate::first::split_word;
use leak_blocks::Live;
use leak_chunks::without_free_links;
use leak_elf::Words;
use leak_index::{Hits, Lookup};

/// The blocks that the first such word leads to, of those whose 8 bytes lie from the address on and before `to`, and
/// where the words after it begin.
pub(crate) fn next_held<W: Words, L: Lookup>(
    words: &W,
    lookup: &L,
    live: &Live,
    from: u64,
    to: u64,
) -> (Hits, u64)
    requires { (L.index lookup.now).blocks ≡ live.now.blocks }
    ensures split { let w = W.word_at words.now in let i = L.index lookup.now in
        range_without_links w i from to ≡ hits_in result.0 ++ range_without_links w i result.1 to }
    ensures end { let w = W.word_at words.now in let i = L.index lookup.now in
        result.0 ≡ Hits.Zero → range_without_links w i result.1 to ≡ [] }
{
    let mut at = from;
    loop {
        let (hits, later) = first_held(words, lookup, live, words.run(at), at, to);
        match hits {
            Hits::Zero => {}
            hits => return (hits, later),
        }
        // Most ranges are the word or two between blocks, and end here.
        if to.saturating_sub(later) < 8 {
            return (Hits::Zero, to);
        }
        let Some(place) = words.next(later) else {
            return (Hits::Zero, to);
        };
        let Some(word) = words.word(place) else {
            return (Hits::Zero, to);
        };
        if to.saturating_sub(place) < 8 {
            return (Hits::Zero, to);
        }
        at = place + 8;
        match held_by(words, lookup, live, place, word) {
            Hits::Zero => {}
            hits => return (hits, at),
        }
    }
}

/// The blocks that the first such word of a run leads to, and where the words after it begin. The run begins at `from`,
/// and the words that end after `to` are left out.
fn first_held<W: Words, L: Lookup>(
    words: &W,
    lookup: &L,
    live: &Live,
    run: &[u8],
    from: u64,
    to: u64,
) -> (Hits, u64)
    requires same_blocks { (L.index lookup.now).blocks ≡ live.now.blocks }
    requires run { IsRun (W.word_at words.now) from run.now }
    ensures split { let w = W.word_at words.now in let i = L.index lookup.now in
        range_without_links w i from to ≡ hits_in result.0 ++ range_without_links w i result.1 to }
    ensures on { from ≤ result.1 }
{
    let mut rest = run;
    let mut at = from;
    while rest.len() >= 8 && to.saturating_sub(at) >= 8 {
        let (word, others) = split_word(rest);
        let place = at;
        rest = others;
        at += 8;
        match held_by(words, lookup, live, place, word) {
            Hits::Zero => {}
            hits => return (hits, at),
        }
    }
    (Hits::Zero, at)
}

/// The blocks that the word at the place leads to, without those for which it is a link to a free chunk.
fn held_by<W: Words, L: Lookup>(words: &W, lookup: &L, live: &Live, place: u64, word: u64) -> Hits
    requires { (L.index lookup.now).blocks ≡ live.now.blocks }
    ensures { hits_in result ≡ held_by (W.word_at words.now) (L.index lookup.now) place word }
{
    match lookup.hits(word) {
        Hits::Zero => Hits::Zero,
        hits => without_free_links(words, live, place, word, hits),
    }
}
