//! Words without zeros, if those lead nowhere.
ghost use Rattle.std.specs.Prelude.{◌≡◌, ◌+◌, IfSome};
ghost use Rattle.leak_elf.specs.Words.{words_between};
ghost use Rattle.leak_scan.specs.Targets.{block_words, targets_of};

use leak_blocks::Block;
use leak_elf::Words;
use leak_index::{Hits, Lookup};

/// The words of a block without those that are 0, if these lead nowhere and the memory has the others as one slice.
#[inline(always)]
pub fn kept_in_block<'a, W: Words, L: Lookup>(
    words: &'a W,
    lookup: &L,
    block: &Block,
) -> Option<&'a [u64]>
    ensures { let all = block_words (W.word_at words.now) block.now in
        IfSome result (λ kept.
        targets_of (L.index lookup.now) kept.now ≡ targets_of (L.index lookup.now) all) }
{
    kept_from(words, lookup, block.start, block.size)
}

/// The same of the words whose 8 bytes all lie from `from` on and before `to`.
#[inline(always)]
pub fn kept_between<'a, W: Words, L: Lookup>(
    words: &'a W,
    lookup: &L,
    from: u64,
    to: u64,
) -> Option<&'a [u64]>
    ensures { let all = words_between (W.word_at words.now) from to in
        IfSome result (λ kept.
        targets_of (L.index lookup.now) kept.now ≡ targets_of (L.index lookup.now) all) }
{
    kept_from(words, lookup, from, to.saturating_sub(from))
}

/// The same of the words whose 8 bytes are among the `size` ones from `from` on.
#[inline(always)]
fn kept_from<'a, W: Words, L: Lookup>(
    words: &'a W,
    lookup: &L,
    from: u64,
    size: u64,
) -> Option<&'a [u64]>
    ensures { let all = words_between (W.word_at words.now) from (from + size) in
        IfSome result (λ kept.
        targets_of (L.index lookup.now) kept.now ≡ targets_of (L.index lookup.now) all) }
{
    let Hits::Zero = lookup.hits(0) else {
        return None;
    };
    let kept = words.kept(from, size / 8)?;
    Some(kept)
}
