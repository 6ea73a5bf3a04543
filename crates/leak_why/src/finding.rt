//! The first word that leads to a block.
ghost use Rattle.std.specs.Prelude.{◌≡◌, ◌↔◌, ◌<◌, ℕ, false, length, IsTrue, IfSome, IfNone, Some, slice_index};
ghost use Rattle.leak_index.specs.Hits.{hits_in, hits_of};
ghost use Rattle.leak_marks.specs.Lists.{Has};
ghost use Rattle.leak_why.specs.Leading.{IsLeading, NoneLeads, led_by};

use leak_blocks::Live;
use leak_chunks::without_free_links;
use leak_elf::Words;
use leak_index::{Hits, Lookup};
use leak_roots::Roots;

/// Whether the block is one of the hits.
fn is_hit(hits: Hits, block: usize) -> bool
    ensures { IsTrue result ↔ Has (hits_in hits) block }
{
    match hits {
        Hits::Zero => false,
        Hits::One(hit) => hit == block,
        Hits::Two(first, second) => first == block || second == block,
    }
}

/// The first of the words that leads to the block, by its number.
pub(crate) fn first_register<L: Lookup>(
    lookup: &L,
    registers: &[u64],
    block: usize,
) -> Option<usize>
    ensures some { IfSome result (λ i. (i < length registers.now)
        × Has (hits_of (L.index lookup.now) (slice_index registers.now i)) block) }
    ensures none { IfNone result ((i : ℕ) → i < length registers.now
        → ¬ Has (hits_of (L.index lookup.now) (slice_index registers.now i)) block) }
{
    for (i, word) in registers.iter().enumerate() {
        if is_hit(lookup.hits(*word), block) {
            return Some(i);
        }
    }
    None
}

/// The first word whose 8 bytes all lie from `from` on and before `to` that leads to the block, with its address.
pub(crate) fn first_word<W: Words, L: Lookup>(
    words: &W,
    lookup: &L,
    from: u64,
    to: u64,
    block: usize,
) -> Option<(u64, u64)>
    ensures some { let w = W.word_at words.now in let i = L.index lookup.now in
        IfSome result (λ r. IsLeading false w i from to block r.0 r.1) }
    ensures none { let w = W.word_at words.now in let i = L.index lookup.now in
        IfNone result (NoneLeads false w i from to to block) }
{
    let mut at = from;
    while let Some(address) = words.next(at) {
        if to.saturating_sub(address) < 8 {
            return None;
        }
        let word = words.word(address)?;
        if is_hit(lookup.hits(word), block) {
            return Some((address, word));
        }
        at = address.saturating_add(8);
    }
    None
}

/// The blocks that the root word at the address leads to, without links to free chunks if the roots leave them out.
fn hits_at<W: Words, L: Lookup>(
    words: &W,
    lookup: &L,
    live: &Live,
    roots: &Roots,
    address: u64,
    word: u64,
) -> Hits
    requires { (L.index lookup.now).blocks ≡ live.now.blocks }
    ensures { let w = W.word_at words.now in let i = L.index lookup.now in
        hits_in result ≡ led_by roots.now.skips_links w i address word }
{
    let hits = lookup.hits(word);
    if roots.skips_links() {
        without_free_links(words, live, address, word, hits)
    } else {
        hits
    }
}

/// The first root word of the range of memory that leads to the block, with its address.
pub(crate) fn first_root_word<W: Words, L: Lookup>(
    words: &W,
    lookup: &L,
    live: &Live,
    roots: &Roots,
    range: (u64, u64),
    block: usize,
) -> Option<(u64, u64)>
    requires { (L.index lookup.now).blocks ≡ live.now.blocks }
    ensures some { let w = W.word_at words.now in let i = L.index lookup.now in
        IfSome result (λ r.
        IsLeading roots.now.skips_links w i range.0 range.1 block r.0 r.1) }
    ensures none { let w = W.word_at words.now in let i = L.index lookup.now in
        IfNone result (NoneLeads roots.now.skips_links w i range.0 range.1 range.1 block) }
{
    let (from, to) = range;
    let mut at = from;
    while let Some(address) = words.next(at) {
        if to.saturating_sub(address) < 8 {
            return None;
        }
        let word = words.word(address)?;
        if is_hit(hits_at(words, lookup, live, roots, address, word), block) {
            return Some((address, word));
        }
        at = address.saturating_add(8);
    }
    None
}
