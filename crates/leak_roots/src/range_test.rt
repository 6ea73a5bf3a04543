//! Which ranges of root words are kept.

ghost use Rattle.std.specs.Prelude.{◌≡◌, ℕ, Bool, true};
ghost use Rattle.leak_roots.specs.Places.{IsRange};

/// A test that says of each range of root words, as it is found, whether it is kept.
pub trait RangeTest {
    /// Whether it keeps a range.
    ghost keeps: { Self → ℕ × ℕ → Bool };

    /// Whether it keeps the range, of an address and the end, excluded.
    fn keeps(&self, range: (u64, u64)) -> bool
        requires { IsRange range }
        ensures { result ≡ keeps self.now range };
}

/// The test that keeps all ranges.
#[derive(Clone, Copy, Debug, PartialEq, Eq)]
pub struct AllRanges;

impl RangeTest for AllRanges {
    ghost keeps = { λ _ _. true };

    fn keeps(&self, _range: (u64, u64)) -> bool {
        true
    }
}
