//! Where a block's mark is.
ghost use Rattle.std.specs.Prelude.{◌≡◌, ◌/◌, ◌%◌, ◌^◌, ◌↔◌, IsTrue};
ghost use Rattle.leak_marks.specs.Lists.{mark_of, word_count};
ghost use Rattle.std.specs.Int.{bit_at};

/// The word of a block.
pub(crate) fn word_of(block: u32) -> usize
    ensures { result ≡ block / 64 }
{
    (block / 64) as usize
}

/// The bit of a block, in its word.
pub(crate) fn bit_of(block: u32) -> u64
    ensures { result ≡ 2 ^ (block % 64) }
{
    1 << (block % 64)
}

/// Whether the bit of a block is set in the word.
pub(crate) fn is_set(word: u64, block: u32) -> bool
    ensures { IsTrue result ↔ bit_at word (block % 64) ≡ 1 }
{
    (word >> (block % 64)) & 1 == 1
}

/// Whether the mark of a block is set in the words that a table was closed with. Past them none is.
pub fn is_marked(words: &[u64], block: u32) -> bool
    ensures { IsTrue result ↔ (mark_of words.now block ≡ 1) }
{
    match words.get(word_of(block)) {
        Some(word) => is_set(*word, block),
        None => false,
    }
}

/// The number of words for this many blocks.
pub(crate) fn count_for(blocks: u32) -> usize
    ensures { result ≡ word_count blocks }
{
    (blocks as usize).div_ceil(64).max(1)
}
