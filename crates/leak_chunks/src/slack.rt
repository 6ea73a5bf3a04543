//! Slack: what malloc gives a block beyond the bytes that were asked for.
ghost use Rattle.std.specs.Prelude.{◌≡◌, IfOk};
ghost use Rattle.leak_blocks.specs.Small.{CoverSame};
ghost use Rattle.leak_blocks.specs.Span.{IsAddressed};
ghost use Rattle.leak_chunks.specs.Slack.{slack_by, slack_of, slack_spans_of};

use crate::chunk::SizeWord;
use crate::fitting::fits_word;
use crate::near::Near;
use leak_blocks::{Block, Live, SmallSpans, Span, joined};
use leak_elf::Words;
use std::alloc::{AllocError, Global};

/// How many bytes before its block a mapping begins. So it ends this many bytes before the block's start plus the chunk's size.
const BEFORE_BLOCK: u64 = 16;
/// The same in a heap, where a block also has the first word of the next chunk's header.
const BEFORE_BLOCK_IN_HEAP: u64 = 8;

/// The slack of a block whose chunk has the size word, if there is any.
fn slack_by(block: &Block, word: SizeWord) -> Option<Span>
    requires { IsAddressed block.now }
    ensures { result ≡ slack_by block.now word.0 }
{
    let Some(after) = block.start.checked_add(word.chunk_size()) else {
        return None;
    };
    let taken = if word.is_mapped() {
        BEFORE_BLOCK
    } else {
        BEFORE_BLOCK_IN_HEAP
    };
    let end = after.saturating_sub(taken);
    let first = block.start + block.size;
    if end <= first {
        return None;
    }
    Some(Span {
        first,
        last: end - 1,
    })
}

/// The slack of the block, if it fits the memory and has any.
#[tactic(auto, unfolding(crate::specs::Fit::fits_core))]
fn slack_of<W: Words>(words: &W, block: &Block) -> Option<Span>
    requires { IsAddressed block.now }
    ensures { result ≡ slack_of (W.word_at words.now) block.now }
{
    if block.start % 16 != 0 {
        return None;
    }
    let Some(word) = words.word(block.start - 8) else {
        return None;
    };
    if !fits_word(words, block, SizeWord(word)) {
        return None;
    }
    slack_by(block, SizeWord(word))
}

/// The slack of the live blocks that fit the memory.
///
/// It reads at most two words for each block. It takes 16 bytes for each block with slack, and as much again while these
/// are joined.
pub fn slack_spans<W: Words>(
    alloc: Global,
    words: &W,
    live: &Live,
) -> Result<SmallSpans, AllocError>
    ensures { IfOk result (λ spans.
        CoverSame spans (slack_spans_of (W.word_at words.now) live.now.blocks)) }
{
    let blocks = live.blocks();
    let mut spans = Vec::new(alloc);
    let mut near = Near::new(words);
    for block in blocks {
        near.go_to(block.start.saturating_sub(8));
        if let Some(span) = slack_of(&near, block) {
            spans.push(span)?;
        }
    }
    joined(alloc, spans)
}
