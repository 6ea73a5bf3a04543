//! A state entry: the descriptor of a note of type NT_X86_XSTATE, which on x86-64 Linux is the area that XSAVE writes, in
//! its standard form (Intel SDM volume 1, chapter 13):
//!
//! | Bytes | Content |
//! |---|---|
//! | 0 to 511 | the FXSAVE area, as a vector entry has it |
//! | 512 to 575 | the header, which says what follows |
//! | 576 to 831 | the upper halves of ymm0 to ymm15 |
//! | 832 to the end | AVX-512's registers, and whatever else the processor has |
//!
//! Each processor states for itself where a part after byte 832 is, so all words from 576 on are taken. How large
//! the area is depends on the processor: one that ends before byte 584 has no word.

ghost use Rattle.std.specs.Prelude.{◌≡◌, ◌++◌, ◌≤◌, length, OnOk};
ghost use Rattle.leak_notes.specs.Entry.{state_words, words_of_state};

use crate::words::push_words;
use std::alloc::AllocError;

/// Where the header ends, in bytes from the first of a state entry's descriptor.
const STATE_AT: usize = 576;

/// The size in bytes of a word.
const WORD_SIZE: usize = 8;

/// How many words a state entry of the size has.
pub(crate) fn state_words(size: usize) -> usize
    ensures { result ≡ state_words size }
{
    size.saturating_sub(STATE_AT) / WORD_SIZE
}

/// Appends the registers of a state entry to the words.
pub(crate) fn push_state(words: &mut Vec<u64>, state: &[u8]) -> Result<(), AllocError>
    ensures ok { OnOk result (words.new.items ≡ words.old.items ++ words_of_state state.now) }
    ensures kept { length words.old.items ≤ length words.new.items }
{
    let count = state_words(state.len());
    if count == 0 {
        return Ok(());
    }
    push_words(words, state, STATE_AT, count)
}
