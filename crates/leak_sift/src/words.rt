//! The words that bytes are.
ghost use Rattle.std.specs.Prelude.{◌≡◌, ◌*◌, ◌+◌, ◌/◌, ◌<◌, ◌≤◌, ℕ, length};
ghost use Rattle.std.specs.Int.{w64, from_le_bytes};
ghost use Rattle.leak_elf.specs.Fields.{number_at};
ghost use Rattle.leak_sift.specs.Passed.{IsOutside};

/// The word that 8 bytes are.
pub(crate) fn word_of(bytes: &[u8; 8]) -> u64
    ensures { result ≡ from_le_bytes w64 bytes.now }
{
    u64::from_le_bytes(*bytes)
}

/// The word that the 8 bytes from the place on are.
#[tactic(auto, unfolding(leak_elf::specs::Fields::number_at))]
pub(crate) fn word_at(bytes: &[u8], at: usize) -> u64
    requires { at + 8 ≤ length bytes.now }
    ensures { result ≡ number_at w64 bytes.now at }
{
    // (compiled to one load, unlike a reading of each byte in its place)
    let (words, _) = bytes[at..at + 8].as_chunks::<8>();
    word_of(&words[0])
}

/// How many of the first words are 0.
pub(crate) fn count_zeros(bytes: &[u8]) -> usize
    ensures bound { result ≤ length bytes.now / 8 }
    ensures each { (k : ℕ) → k < result → number_at w64 bytes.now (8 * k) ≡ 0 }
{
    let (words, _) = bytes.as_chunks::<8>();
    let count = bytes.len() / 8;
    for number in 0..count {
        if word_of(&words[number]) != 0 {
            return number;
        }
    }
    count
}

/// How many of the first words, of so many at most, are 0, below the lowest or above the highest.
pub(crate) fn count_outside(bytes: &[u8], most: usize, low: u64, high: u64) -> usize
    requires { most ≤ length bytes.now / 8 }
    ensures bound { result ≤ most }
    ensures each { (k : ℕ) → k < result → IsOutside low high (number_at w64 bytes.now (8 * k)) }
{
    let (words, _) = bytes.as_chunks::<8>();
    for number in 0..most {
        let word = word_of(&words[number]);
        if low <= word && word <= high && word != 0 {
            return number;
        }
    }
    most
}
