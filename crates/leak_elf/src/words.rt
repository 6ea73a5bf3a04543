//! Memory as a map from addresses to words.

ghost use Rattle.std.specs.Prelude.{◌≡◌, ◌+◌, ◌*◌, ◌<◌, ◌≤◌, ◌%◌, ◌^◌, ℕ, Option, IfSome, IsSome};
ghost use Rattle.leak_elf.specs.Words.{IsNextReadable, IsPastZeros, IsRun, kept_words};

/// A map from addresses to words of 8 bytes. Only multiples of 8 have a word.
pub trait Words {
    /// The word at each address that has one.
    ghost word_at: { Self → ℕ → Option ℕ };

    /// The word at the address, if it has one.
    fn word(&self, addr: u64) -> Option<u64>
        ensures value { result ≡ word_at self.now addr }
        ensures place { IfSome result (λ _. (addr % 8 ≡ 0) × (addr + 8 ≤ 2 ^ 64)) };

    /// The least address from `from` on that has a word, `from` included.
    fn next(&self, from: u64) -> Option<u64>
        ensures least { IsNextReadable (word_at self.now) from result }
        ensures place { IfSome result (λ addr. (addr % 8 ≡ 0) × (addr + 8 ≤ 2 ^ 64)) };

    /// An address from `from` on that has a word, such that none before it has a word other than 0. By default it is
    /// the least that has a word.
    fn skip_zeros(&self, from: u64) -> Option<u64>
        ensures zeros { IsPastZeros (word_at self.now) from result }
        ensures place { IfSome result (λ addr. (addr % 8 ≡ 0) × (addr + 8 ≤ 2 ^ 64)) }
    {
        self.next(from)
    }

    /// Bytes of consecutive words from the address on. It may give fewer than there are, by default none:
    /// a caller asks `word` for the others.
    fn run(&self, from: u64) -> &[u8]
        ensures { IsRun (word_at self.now) from result.now }
    {
        &[]
    }

    /// Of the words at `count` addresses from this one on, each 8 after the one before it, those that aren't 0, if that
    /// can be told at once. By default it can't.
    fn kept(&self, from: u64, count: u64) -> Option<&[u64]>
        ensures kept { IfSome result (λ kept.
            kept.now ≡ kept_words (word_at self.now) from count) }
        ensures place { IfSome result (λ _. (from % 8 ≡ 0) × (from + 8 * count < 2 ^ 64)) }
    {
        None
    }

    /// Only multiples of 8 have a word.
    ghost aligned: { (words : Self) (addr : ℕ) → IsSome (word_at words addr) → addr % 8 ≡ 0 };
}
