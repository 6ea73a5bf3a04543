//! The bytes of blocks, one block after another.
ghost use Rattle.std.specs.Prelude.{◌≡◌, ℕ, Option, IfSome};
ghost use Rattle.leak_elf.specs.Words.{IsRun};
ghost use Rattle.leak_scan.specs.Targets.{block_words};
ghost use Rattle.leak_scan.specs.Positions.{words_in};

use leak_blocks::Block;
use leak_elf::Words;

/// Finds the words of blocks, one block after another.
///
/// It keeps the run of words that the last block was in. If the next one is in it too, no segment is searched for. Of
/// blocks by ascending start nearly every one is.
#[derive(Drop)]
pub struct BlockRuns<'a, W: Words> {
    /// The memory.
    pub words: &'a W,
    /// Where the kept run begins.
    from: u64,
    run: &'a [u8],
    ghost kept: { IsRun (W.word_at words.now) from run.now },
}

impl<'a, W: Words> BlockRuns<'a, W> {
    /// Begins with no run.
    pub fn new(words: &'a W) -> BlockRuns<'a, W>
        ensures { result.words.now ≡ words.now }
    {
        BlockRuns {
            words,
            from: 0,
            run: &[],
        }
    }

    /// The bytes of the words of a block, if they are in one run. None if they are not, or if that can't be told
    /// at once.
    pub fn of_block(&mut self, block: &Block) -> Option<&'a [u8]>
        ensures same { self.new.words.now ≡ self.old.words.now }
        ensures bytes { IfSome result
            (λ bytes. words_in bytes.now ≡ block_words (W.word_at self.old.words.now) block.now) }
    {
        let words = self.words;
        let from = block.start;
        let whole = 8 * (block.size / 8);
        let near = run_on(self.run, self.from, from);
        if near.len() as u64 >= whole {
            let (bytes, _) = near.split_at(whole as usize);
            return Some(bytes);
        }
        let run = words.run(from);
        *self = BlockRuns { words, from, run };
        if (run.len() as u64) < whole {
            return None;
        }
        let (bytes, _) = run.split_at(whole as usize);
        Some(bytes)
    }
}

/// What a run that begins at `from` has from `at` on. Empty if `at` is outside it, or in the midst of one
/// of its words.
fn run_on(run: &[u8], from: u64, at: u64) -> &[u8]
    ensures { (word_at : ℕ → Option ℕ) → IsRun word_at from run.now → IsRun word_at at result.now }
{
    let distance = at.saturating_sub(from);
    if at < from || distance % 8 != 0 || run.len() as u64 <= distance {
        return &[];
    }
    let (_, rest) = run.split_at(distance as usize);
    rest
}
