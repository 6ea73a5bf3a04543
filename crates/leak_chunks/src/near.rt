//! Memory that is read near one place after another.
ghost use Rattle.std.specs.Prelude.{◌≡◌, ◌+◌, ◌≤◌, ℕ, Option, Some, IfSome, length};
ghost use Rattle.std.specs.Int.{w64};
ghost use Rattle.leak_elf.specs.Fields.{number_at};
ghost use Rattle.leak_elf.specs.Words.{IsRun};

use leak_elf::Words;

/// Words of memory. It keeps a run of them and, where memory has no runs, the last word that was looked at. For these
/// it searches no segment.
#[derive(Drop)]
pub(crate) struct Near<'a, W: Words> {
    pub(crate) words: &'a W,
    /// Where the kept run begins.
    from: u64,
    run: &'a [u8],
    /// The place that was looked at last, and what is there.
    last: (u64, Option<u64>),
    ghost kept: { IsRun (W.word_at words.now) from run.now },
    ghost looked: { last.1 ≡ W.word_at words.now last.0 },
}

impl<'a, W: Words> Near<'a, W> {
    /// Begins with no run.
    pub(crate) fn new(words: &'a W) -> Near<'a, W>
        ensures { result.words.now ≡ words.now }
    {
        Near {
            words,
            from: 0,
            run: &[],
            last: (0, words.word(0)),
        }
    }

    /// Keeps the run from the address on, unless the kept one goes on past it, or the word there was looked at last.
    pub(crate) fn go_to(&mut self, addr: u64)
        ensures { self.new.words.now ≡ self.old.words.now }
    {
        if self.has(addr) || addr == self.last.0 {
            return;
        }
        let words = self.words;
        *self = Near {
            words,
            from: addr,
            run: words.run(addr),
            last: self.last,
        };
    }

    /// Looks at the word at the address, unless the kept run has that address.
    pub(crate) fn look_at(&mut self, addr: u64)
        ensures { self.new.words.now ≡ self.old.words.now }
    {
        if !self.has(addr) {
            let words = self.words;
            self.last = (addr, words.word(addr));
        }
    }

    /// Whether the kept run has the byte at the address.
    fn has(&self, addr: u64) -> bool {
        let distance = addr.saturating_sub(self.from);
        self.from <= addr && distance < self.run.len() as u64
    }
}

impl<'a, W: Words> Words for Near<'a, W> {
    ghost word_at = { λ near. W.word_at near.words.now };

    fn word(&self, addr: u64) -> Option<u64> {
        if addr == self.last.0 {
            return self.last.1;
        }
        match word_of_run(self.run, self.from, addr) {
            Some(word) => Some(word),
            None => self.words.word(addr),
        }
    }

    fn next(&self, from: u64) -> Option<u64> {
        self.words.next(from)
    }

    fn run(&self, from: u64) -> &[u8] {
        self.words.run(from)
    }

    ghost aligned = { λ near. W.aligned near.words.now };
}

/// The word at the address, if the run that begins at `from` has it.
fn word_of_run(run: &[u8], from: u64, addr: u64) -> Option<u64>
    ensures { (word_at : ℕ → Option ℕ) → IsRun word_at from run.now
        → IfSome result (λ word. word_at addr ≡ Some word) }
{
    let distance = addr.saturating_sub(from);
    if addr < from || distance % 8 != 0 || (run.len() as u64).saturating_sub(distance) < 8 {
        return None;
    }
    Some(word_in(run, distance as usize))
}

/// The word that the 8 bytes from the place on are.
#[tactic(auto, unfolding(leak_elf::specs::Fields::number_at))]
fn word_in(bytes: &[u8], place: usize) -> u64
    requires { place + 8 ≤ length bytes.now }
    ensures { result ≡ number_at w64 bytes.now place }
{
    let mut word = [0; 8];
    word.copy_from_slice(&bytes[place..place + 8]);
    u64::from_le_bytes(word)
}
