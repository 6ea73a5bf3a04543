//! What a file has behind the bytes that are held.

ghost use Rattle.std.specs.Prelude.{◌≡◌, ◌<◌, ◌%◌, ◌^◌, ℕ, List, [], length, IfSome};
ghost use Rattle.leak_elf.specs.Head.{aligned_number_at, AreZerosUpTo};
ghost use Rattle.leak_elf.specs.Words.{kept_words};

/// What a file has behind the bytes that are held. Of those bytes only words are asked for.
pub trait Rest: Drop {
    /// The bytes.
    ghost bytes: { Self → List ℕ };

    /// How many bytes they are.
    fn len(&self) -> u64
        ensures value { result ≡ length (bytes self.now) }
        ensures bound { result < 2 ^ 63 };

    /// The word at the offset from their beginning, if that is a multiple of 8 and they have its 8 bytes.
    fn word(&self, at: usize) -> Option<u64>
        ensures { result ≡ aligned_number_at (bytes self.now) at };

    /// A multiple of 8 from the offset on, which is one too: each word before it is 0. By default none is passed over.
    fn skip_zeros(&self, at: usize) -> usize
        requires { at % 8 ≡ 0 }
        ensures { AreZerosUpTo (bytes self.now) at result }
    {
        at
    }

    /// Of the words at `count` offsets from this one on, each 8 after the one before it, those that aren't 0, if that
    /// can be told at once. By default it can't.
    fn kept(&self, at: usize, count: usize) -> Option<&[u64]>
        ensures { IfSome result (λ kept.
            kept.now ≡ kept_words (aligned_number_at (bytes self.now)) at count) }
    {
        None
    }
}

/// Nothing is behind them: the whole file is held.
#[derive(Drop)]
pub struct NoRest;

impl Rest for NoRest {
    ghost bytes = { λ _. [] };

    fn len(&self) -> u64 {
        0
    }

    #[tactic(auto, unfolding(crate::specs::Head::aligned_number_at))]
    fn word(&self, _at: usize) -> Option<u64> {
        None
    }
}
