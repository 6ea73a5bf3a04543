//! A vector entry: the descriptor of a note of type NT_FPREGSET, which on x86-64 Linux is `struct user_fpregs_struct`,
//! the 512 bytes that FXSAVE writes in 64-bit mode (Intel SDM, Layout of the 64-bit Mode FXSAVE Map).
//!
//! The eight registers of x87, of which MMX takes the lower halves, and xmm0 to xmm15 have 16 bytes each, the lower half first:
//!
//! | Words | Bytes | Register |
//! |---|---|---|
//! | 0, 1 | 32, 40 | st0 |
//! | .. | .. | .. |
//! | 14, 15 | 144, 152 | st7 |
//! | 16, 17 | 160, 168 | xmm0 |
//! | .. | .. | .. |
//! | 46, 47 | 400, 408 | xmm15 |
//!
//! The bytes before 32 hold control words, those from 416 on are reserved: no root is taken from them. The upper halves of
//! ymm0 to ymm15 are in a state entry.

ghost use Rattle.std.specs.Prelude.{◌≡◌, ◌++◌, ◌≤◌, length, OnOk};
ghost use Rattle.leak_notes.specs.Entry.{words_of_vector};

use crate::words::push_words;
use std::alloc::AllocError;

/// The size in bytes of a vector entry's descriptor.
pub(crate) const VECTOR_SIZE: usize = 512;

/// Where the first register begins, in bytes from its first.
const VECTORS_AT: usize = 32;

/// How many words there are, two for each of the 24 registers.
const VECTOR_WORDS: usize = 48;

/// Appends the vector registers of an entry to the words.
pub(crate) fn push_vectors(words: &mut Vec<u64>, vector: &[u8]) -> Result<(), AllocError>
    requires { length vector.now ≡ 512 }
    ensures ok { OnOk result (words.new.items ≡ words.old.items ++ words_of_vector vector.now) }
    ensures kept { length words.old.items ≤ length words.new.items }
{
    push_words(words, vector, VECTORS_AT, VECTOR_WORDS)
}
