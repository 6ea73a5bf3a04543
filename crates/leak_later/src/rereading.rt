//! Counting the words of blocks on listed pages.
ghost use Rattle.std.specs.Prelude.{◌≡◌, ◌+◌, ◌-◌, ◌<◌, ◌≤◌, ◌^◌, ℕ, length};
ghost use Rattle.std.specs.List.Sorted.{IsStrictlyIncreasing};
ghost use Rattle.leak_marks.specs.Lists.{Has};
ghost use Rattle.leak_blocks.specs.Span.{AreAddressed, AreDisjoint};
ghost use Rattle.leak_scan.specs.Targets.{block_words_on};
ghost use Rattle.leak_scan.specs.Positions.{words_from};
ghost use Rattle.leak_later.specs.Differing.{reread_of};

use leak_blocks::Block;
use leak_elf::Words;
use leak_scan::Pages;

/// How many words begin at the addresses from the first up to the end, which is excluded.
fn count_in<W: Words>(words: &W, from: u64, end: u64) -> u64
    requires { end + 7 < 2 ^ 64 }
    ensures { result ≡ length (words_from (W.word_at words.now) from (end - from)) }
{
    let mut count = 0;
    let mut at = from;
    while let Some(addr) = words.next(at) {
        if addr >= end {
            return count;
        }
        let in_run = words.run(addr).len() as u64 / 8;
        let found = in_run.clamp(1, (end - addr).div_ceil(8));
        count += found;
        at = addr + 8 * found;
    }
    count
}

/// How many words of the block are on listed pages.
fn count_on<W: Words>(words: &W, block: &Block, pages: &Pages) -> u64
    requires { block.now.start + block.now.size < 2 ^ 64 }
    ensures { result ≡ length (block_words_on (W.word_at words.now) pages.now block.now) }
{
    let end = block.start + block.size.saturating_sub(7);
    let mut count = 0;
    let mut at = block.start;
    while let Some((start, len)) = pages.window(at) {
        if start >= end {
            return count;
        }
        at = end.min(start.saturating_add(len));
        count += count_in(words, start, at);
    }
    count
}

/// How many words the numbered blocks have on the pages. It reads no word on other pages.
pub(crate) fn count_words<W: Words>(
    words: &W,
    blocks: &[Block],
    numbers: &[u32],
    pages: &Pages,
) -> u64
    requires addressed { AreAddressed blocks.now }
    requires disjoint { AreDisjoint blocks.now }
    requires ascending { IsStrictlyIncreasing numbers.now }
    requires inside { (b : ℕ) → Has numbers.now b → b < length blocks.now }
    ensures { result ≡ reread_of (W.word_at words.now) pages.now blocks.now numbers.now }
{
    let mut count = 0;
    for number in numbers {
        count += count_on(words, &blocks[*number as usize], pages);
    }
    count
}
