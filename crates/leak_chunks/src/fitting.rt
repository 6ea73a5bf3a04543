//! Which live blocks the heap of a core has.
ghost use Rattle.std.specs.Prelude.{◌≡◌, ◌+◌, ◌<◌, ◌≤◌, IfOk, count_by, not};
ghost use Rattle.leak_blocks.specs.Span.{AreAddressed};
ghost use Rattle.leak_chunks.specs.Fit.{follows_one_in_use, fits_word, fits_core, fits_of};

use crate::chunk::{SizeWord, is_heap_chunk_for, is_mapping_for};
use crate::near::Near;
use leak_blocks::{Block, Live};
use leak_elf::Words;
use std::alloc::{AllocError, Global};

/// For each live block, whether the memory has a chunk in use of its size.
///
/// It reads at most two words for each block.
pub fn fits<W: Words>(alloc: Global, words: &W, live: &Live) -> Result<Vec<bool>, AllocError>
    ensures { IfOk result (λ fits. fits.items ≡ fits_of (W.word_at words.now) live.now.blocks) }
{
    // Not collected: that could go on after its first request for room was refused.
    let blocks = live.blocks();
    let mut fits = Vec::with_capacity(alloc, blocks.len())?;
    let mut near = Near::new(words);
    for block in blocks {
        fits.push(fits_core(&mut near, block))?;
    }
    Ok(fits)
}

/// How many of the live blocks are misfits: those for which the memory has no chunk in use of their size. It keeps no list.
pub fn count_misfits<W: Words>(words: &W, live: &Live) -> u64
    ensures { result ≡ count_by not (fits_of (W.word_at words.now) live.now.blocks) }
{
    count_misfits_among(words, live.blocks())
}

/// How many of the blocks are misfits.
pub(crate) fn count_misfits_among<W: Words>(words: &W, blocks: &[Block]) -> u64
    requires { AreAddressed blocks.now }
    ensures { result ≡ count_by not (fits_of (W.word_at words.now) blocks.now) }
{
    let mut near = Near::new(words);
    let mut misfits = 0;
    for block in blocks {
        if !fits_core(&mut near, block) {
            misfits += 1;
        }
    }
    misfits
}

/// Whether the memory has a chunk in use of the block's size. It looks last at the next chunk's size word, which most
/// often is the size word of the next block.
#[tactic(auto, unfolding(crate::specs::Fit::fits_core))]
fn fits_core<W: Words>(near: &mut Near<'_, W>, block: &Block) -> bool
    requires { 0 < block.now.start }
    ensures fits { result ≡ fits_core (W.word_at near.old.words.now) block.now }
    ensures same { near.new.words.now ≡ near.old.words.now }
{
    if block.start % 16 != 0 {
        return false;
    }
    let place = block.start - 8;
    near.go_to(place);
    let Some(word) = near.word(place) else {
        return false;
    };
    let word = SizeWord(word);
    near.look_at(place.saturating_add(word.chunk_size()));
    fits_word(near, block, word)
}

/// Whether the size word, which is the word before the block, is that of a chunk in use of the block's size.
pub(crate) fn fits_word<W: Words>(words: &W, block: &Block, word: SizeWord) -> bool
    requires { 8 ≤ block.now.start }
    ensures { result ≡ fits_word (W.word_at words.now) block.now word.0 }
{
    let chunk = word.chunk_size();
    if word.is_mapped() {
        return is_mapping_for(block.size, chunk);
    }
    is_heap_chunk_for(block.size, chunk) && follows_one_in_use(words, block.start - 8, chunk)
}

/// Whether the word that many bytes after the address is a size word which says that the chunk before it is in use.
fn follows_one_in_use<W: Words>(words: &W, addr: u64, bytes: u64) -> bool
    ensures { result ≡ follows_one_in_use (W.word_at words.now) (addr + bytes) }
{
    word_after(words, addr, bytes).is_some_and(|word| SizeWord(word).is_previous_in_use())
}

/// The word that many bytes after the address, if there is one.
pub(crate) fn word_after<W: Words>(words: &W, addr: u64, bytes: u64) -> Option<u64>
    ensures { result ≡ W.word_at words.now (addr + bytes) }
{
    match addr.checked_add(bytes) {
        Some(place) => words.word(place),
        // No word begins at the last address, nor after it, so this gives none.
        None => words.next(u64::MAX),
    }
}
