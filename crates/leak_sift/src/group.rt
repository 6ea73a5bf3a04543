//! Groups of 64 words.
ghost use Rattle.std.specs.Prelude.{◌≡◌, ◌<◌, ◌≤◌, length, not};
ghost use Rattle.leak_sift.specs.Grouped.{AreBits};
ghost use Rattle.leak_sparse.specs.Pushed.{word_of};
ghost use Rattle.leak_sparse.specs.Words.{is_between};

use crate::words::word_of;

/// Which of 64 words are neither below `low` nor above `high`, by bits.
#[inline(always)]
pub(crate) fn bits_between(words: &[[u8; 8]], low: u64, high: u64) -> u64
    requires { length words.now ≡ 64 }
    ensures { AreBits (λ k. is_between low high (word_of words.now k)) 64 result }
{
    if high < low {
        return 0;
    }
    // (two halves, since each word waits for the one before it)
    let (first, last) = words.split_at(32);
    (half_between(last, low, high) << 32) + half_between(first, low, high)
}

/// The same of 32 words.
#[inline(always)]
fn half_between(words: &[[u8; 8]], low: u64, high: u64) -> u64
    requires words { length words.now ≡ 32 }
    requires order { low ≤ high }
    ensures { AreBits (λ k. is_between low high (word_of words.now k)) 32 result }
{
    let mut bits = 0;
    let mut left = 32;
    while left > 0 {
        left -= 1;
        // No branch: which words are in range is hard to foresee.
        bits = 2 * bits + 1 - u64::from(is_outside(word_of(&words[left]), low, high));
    }
    bits
}

/// Whether the word is below `low` or above `high`.
#[inline(always)]
fn is_outside(word: u64, low: u64, high: u64) -> bool
    requires { low ≤ high }
    ensures { result ≡ not (is_between low high word) }
{
    // (one comparison: for a word below `low` the difference is large)
    word.wrapping_sub(low) > high - low
}
