//! Reading words from an address on.
ghost use Rattle.std.specs.Prelude.{◌≡◌, ◌+◌, ◌≤◌, ◌<◌, ◌%◌, ◌^◌, ℕ, IfNone, IfSome};
ghost use Rattle.leak_scan.specs.Positions.{IsPastIdle, IsRead, LeadsNowhere};

use leak_elf::Words;
use leak_index::{Hits, Lookup};

/// Words that were read.
#[derive(Clone, Copy)]
pub(crate) enum ReadWords<'a> {
    Nothing,
    /// One word.
    Word(u64),
    /// The bytes of one word or more.
    Bytes(&'a [u8]),
    /// Those of some words that aren't 0.
    Kept(&'a [u64]),
}

/// The first words from the address on, without some that lead nowhere, and the address up to which the memory has no
/// others. Words `window` addresses after it or further are not read. None if no word from the address on leads anywhere.
pub(crate) fn read_on<'a, W: Words, L: Lookup>(
    words: &'a W,
    lookup: &L,
    from: u64,
    window: u64,
) -> Option<(ReadWords<'a>, u64)>
    requires { 0 < window }
    ensures ended { IfNone result ((a : ℕ) → from ≤ a →
        LeadsNowhere (L.index lookup.now) (W.word_at words.now a)) }
    ensures read { IfSome result (λ r.
        IsRead (W.word_at words.now) (L.index lookup.now) from window r.0 r.1) }
{
    let run = words.run(from);
    let room = window.min(u64::MAX - from);
    let whole = (run.len() as u64 / 8).min(room.div_ceil(8));
    if whole > 0 {
        let (front, _) = run.split_at(8 * whole as usize);
        return Some((ReadWords::Bytes(front), from.saturating_add(8 * whole)));
    }
    if let Some(kept) = kept_on(words, lookup, from, window) {
        return Some(kept);
    }
    let next = next_word(words, lookup, from)?;
    if next - from >= window {
        return Some((ReadWords::Nothing, next));
    }
    let word = words.word(next)?;
    Some((ReadWords::Word(word), next.saturating_add(8)))
}

/// The words of the window without those that are 0, and the address after it, if these lead nowhere and the memory
/// tells the others at once.
fn kept_on<'a, W: Words, L: Lookup>(
    words: &'a W,
    lookup: &L,
    from: u64,
    window: u64,
) -> Option<(ReadWords<'a>, u64)>
    requires { 0 < window }
    ensures { IfSome result (λ r.
        IsRead (W.word_at words.now) (L.index lookup.now) from window r.0 r.1) }
{
    let Hits::Zero = lookup.hits(0) else {
        return None;
    };
    let count = window.div_ceil(8);
    let kept = words.kept(from, count)?;
    Some((ReadWords::Kept(kept), from + 8 * count))
}

/// The next address from `from` on that has a word, past zeros if those lead nowhere.
fn next_word<W: Words, L: Lookup>(words: &W, lookup: &L, from: u64) -> Option<u64>
    ensures next { IsPastIdle (L.index lookup.now) (W.word_at words.now) from result }
    ensures place { IfSome result (λ addr. (addr % 8 ≡ 0) × (addr + 8 ≤ 2 ^ 64)) }
{
    match lookup.hits(0) {
        Hits::Zero => words.skip_zeros(from),
        _ => words.next(from),
    }
}
