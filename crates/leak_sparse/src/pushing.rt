//! The words of a group that are pushed at once.
ghost use Rattle.std.specs.Prelude.{◌≡◌, ◌+◌, ◌^◌, ◌<◌, ◌≤◌, length, count_ones, vec_len, vec_capacity};
ghost use Rattle.std.specs.Int.{w64, from_le_bytes};
ghost use Rattle.leak_sparse.specs.Pushed.{AreNonzeroBits, ArePushed};

/// The word that 8 bytes are.
#[inline(always)]
fn word_of(bytes: &[u8; 8]) -> u64
    ensures { result ≡ from_le_bytes w64 bytes.now }
{
    u64::from_le_bytes(*bytes)
}

/// Those of the bits whose words aren't 0.
#[inline(always)]
pub(crate) fn nonzero_bits(bits: u64, words: &[[u8; 8]]) -> u64
    requires { length words.now ≡ 64 }
    ensures { AreNonzeroBits bits words.now result }
{
    let mut nonzero = 0;
    let mut rest = bits;
    while rest != 0 {
        let bit = rest.trailing_zeros() as usize;
        // No branch: which words are 0 is hard to foresee.
        nonzero += u64::from(word_of(&words[bit]) != 0) << bit;
        rest &= rest - 1;
    }
    nonzero
}

/// Adds the words whose bits are set.
#[inline(always)]
pub(crate) fn push_set(kept: &mut Vec<u64>, bits: u64, words: &[[u8; 8]])
    requires words { length words.now ≡ 64 }
    requires nonzero { AreNonzeroBits bits words.now bits }
    requires room { vec_len kept.old + count_ones bits ≤ vec_capacity kept.old }
    ensures { ArePushed bits words.now kept.old.items kept.new.items }
{
    let mut rest = bits;
    while rest != 0 {
        let bit = rest.trailing_zeros() as usize;
        kept.push_reserved(word_of(&words[bit]));
        rest &= rest - 1;
    }
}
