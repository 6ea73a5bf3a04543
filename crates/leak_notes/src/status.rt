//! A thread status: the descriptor of a note of type NT_PRSTATUS, Linux's `struct elf_prstatus`.
//!
//! Its registers are words of 8 bytes, from byte 112 to byte 328, in the order of Linux's
//! `struct user_regs_struct`:
//!
//! | Word | Byte | Register |
//! |---|---|---|
//! | 0 | 112 | r15 |
//! | 1 | 120 | r14 |
//! | 2 | 128 | r13 |
//! | 3 | 136 | r12 |
//! | 4 | 144 | rbp |
//! | 5 | 152 | rbx |
//! | 6 | 160 | r11 |
//! | 7 | 168 | r10 |
//! | 8 | 176 | r9 |
//! | 9 | 184 | r8 |
//! | 10 | 192 | rax |
//! | 11 | 200 | rcx |
//! | 12 | 208 | rdx |
//! | 13 | 216 | rsi |
//! | 14 | 224 | rdi |
//! | 15 | 232 | orig_rax |
//! | 16 | 240 | rip |
//! | 17 | 248 | cs |
//! | 18 | 256 | eflags |
//! | 19 | 264 | rsp |
//! | 20 | 272 | ss |
//! | 21 | 280 | fs_base |
//! | 22 | 288 | gs_base |
//! | 23 | 296 | ds |
//! | 24 | 304 | es |
//! | 25 | 312 | fs |
//! | 26 | 320 | gs |

ghost use Rattle.std.specs.Prelude.{◌≡◌, ◌++◌, ◌≤◌, length, OnOk};
ghost use Rattle.leak_notes.specs.Entry.{words_of_status};

use crate::words::push_words;
use std::alloc::AllocError;

/// The size in bytes of a thread status.
pub(crate) const STATUS_SIZE: usize = 336;

/// Where the registers begin, in bytes from its first.
const REGISTERS_AT: usize = 112;

/// How many registers there are.
const REGISTERS: usize = 27;

/// Appends the registers of a thread status to the words.
pub(crate) fn push_registers(words: &mut Vec<u64>, status: &[u8]) -> Result<(), AllocError>
    requires { length status.now ≡ 336 }
    ensures ok { OnOk result (words.new.items ≡ words.old.items ++ words_of_status status.now) }
    ensures kept { length words.old.items ≤ length words.new.items }
{
    push_words(words, status, REGISTERS_AT, REGISTERS)
}
