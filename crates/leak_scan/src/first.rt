//! The first word of a list that leads to a block.
ghost use Rattle.std.specs.Prelude.{◌≡◌, ◌++◌, ◌≤◌, [], drop, length, nat_lt};
ghost use Rattle.std.specs.Int.{w64};
ghost use Rattle.leak_elf.specs.Fields.{number_at};
ghost use Rattle.leak_index.specs.Hits.{hits_in};
ghost use Rattle.leak_scan.specs.Targets.{targets_of};
ghost use Rattle.leak_scan.specs.Positions.{words_in};

use byteorder::{ByteOrder, LittleEndian};
use leak_index::{Hits, Lookup};

/// Whether a word of the list leads to a block.
pub fn lead_somewhere<L: Lookup>(lookup: &L, words: &[u64]) -> bool
    ensures { result ≡ nat_lt 0 (length (targets_of (L.index lookup.now) words.now)) }
{
    let (hits, _) = first_of_list(lookup, words);
    match hits {
        Hits::Zero => false,
        _ => true,
    }
}

/// The blocks that the first such word leads to, and the words after it.
pub(crate) fn first_of_list<'a, L: Lookup>(lookup: &L, words: &'a [u64]) -> (Hits, &'a [u64])
    ensures split { targets_of (L.index lookup.now) words.now
        ≡ hits_in result.0 ++ targets_of (L.index lookup.now) result.1.now }
    ensures end { result.0 ≡ Hits.Zero → result.1.now ≡ [] }
{
    let mut rest = words;
    while let Some((word, others)) = rest.split_first() {
        rest = others;
        match lookup.hits(*word) {
            Hits::Zero => {}
            hits => return (hits, rest),
        }
    }
    (Hits::Zero, rest)
}

/// The same over bytes, each 8 of which are a word.
pub(crate) fn first_of_run<'a, L: Lookup>(lookup: &L, bytes: &'a [u8]) -> (Hits, &'a [u8])
    ensures split { targets_of (L.index lookup.now) (words_in bytes.now)
        ≡ hits_in result.0 ++ targets_of (L.index lookup.now) (words_in result.1.now) }
    ensures end { result.0 ≡ Hits.Zero → words_in result.1.now ≡ [] }
{
    let mut rest = bytes;
    while rest.len() >= 8 {
        let (word, others) = split_word(rest);
        rest = others;
        match lookup.hits(word) {
            Hits::Zero => {}
            hits => return (hits, rest),
        }
    }
    (Hits::Zero, rest)
}

/// The word that the first 8 bytes are, and the bytes past them.
#[tactic(auto, unfolding(leak_elf::specs::Fields::number_at))]
pub(crate) fn split_word(bytes: &[u8]) -> (u64, &[u8])
    requires { 8 ≤ length bytes.now }
    ensures word { result.0 ≡ number_at w64 bytes.now 0 }
    ensures rest { result.1.now ≡ drop 8 bytes.now }
{
    let (_, rest) = bytes.split_at(8);
    (LittleEndian::read_u64(&bytes[0..8]), rest)
}
