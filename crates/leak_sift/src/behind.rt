//! What a core file has behind the bytes that are held.
ghost use Rattle.std.specs.Prelude.{◌≡◌, [], IfOk};
ghost use Rattle.leak_sift.specs.Behind.{AreWords, HasWords, bytes_behind};

use leak_elf::Rest;
use leak_sparse::SparseWords;
use std::alloc::AllocError;
use std::marker::Model;

/// How many bytes are too many.
const TOO_MANY: u64 = 1 << 63;

/// The bytes of a core file behind those that are held: 8 for each word, and a zero for each byte after the last word.
/// Contracts see the bytes.
#[derive(Drop)]
pub struct Behind<'a> {
    /// None if there are no words.
    words: Option<&'a SparseWords>,
    /// How many bytes.
    len: u64,
}

impl<'a> Model for Behind<'a> {
    ghost use Rattle.std.specs.Prelude.{ℕ, List};
    ghost use Rattle.leak_sift.specs.Behind.{IsBehind, bytes_behind, words_behind};

    ghost Value = { List ℕ };

    ghost view = { λ behind. bytes_behind (words_behind behind.words) behind.len };

    ghost invariant = { λ behind. IsBehind (words_behind behind.words) behind.len };
}

impl<'a> Behind<'a> {
    /// No bytes: the whole file is held.
    pub fn none() -> Behind<'a>
        ensures { result ≡ [] }
    {
        Behind {
            words: None,
            len: 0,
        }
    }

    /// So many bytes, of which the words are the first ones. An error is that there are 2^63 or more.
    pub fn new(words: &'a SparseWords, len: u64) -> Result<Behind<'a>, AllocError>
        requires { HasWords words.now len }
        ensures { IfOk result (λ behind. behind ≡ bytes_behind words.now len) }
    {
        if len >= TOO_MANY {
            return Err(AllocError);
        }
        Ok(Behind {
            words: Some(words),
            len,
        })
    }
}

/// A law, for proofs: each number in a slice of words is below 2^64.
fn are_words(words: &[u64])
    ensures { AreWords words.now }
{
    let _words = words;
}

impl<'a> Rest for Behind<'a> {
    ghost bytes = { λ behind. behind };

    fn len(&self) -> u64 {
        self.len
    }

    #[tactic(auto, unfolding(leak_elf::specs::Head::aligned_number_at))]
    fn word(&self, at: usize) -> Option<u64> {
        if at % 8 != 0 {
            return None;
        }
        let words = self.words?;
        let word = words.get(at / 8)?;
        Some(word)
    }

    fn skip_zeros(&self, at: usize) -> usize {
        let Some(words) = self.words else {
            return at;
        };
        let place = at / 8;
        if place >= words.len() {
            return at;
        }
        8 * words.skip_zeros(place)
    }

    #[inline(always)]
    #[tactic(auto, unfolding(leak_elf::specs::Head::aligned_number_at))]
    fn kept(&self, at: usize, count: usize) -> Option<&[u64]> {
        let words = self.words?;
        let place = at / 8;
        let left = words.len().checked_sub(place)?;
        if at % 8 != 0 || left < count {
            return None;
        }
        let kept = words.kept_between(place, place + count);
        are_words(kept);
        Some(kept)
    }
}
