//! Reads the notes of a Linux core file: the registers of its threads.
//!
//! [`Threads::read`] goes over the parts of an [`Image`](leak_elf::Image) that hold notes, and gives the
//! register words of each thread status, vector entry and state entry, or the first reason against the
//! notes, a [`NoteError`]. [`register_sets`] tells which registers these words are, for an answer to the
//! question why a block is held. [`Threads::count`] is for libraries and tests.
//!
//! The rules are those of elf(5) for notes; of Linux's `struct elf_prstatus` for a thread status; of Linux's NT_FPREGSET and
//! Intel's FXSAVE for a vector entry, of which st0 to st7 and xmm0 to xmm15 are taken; and of Linux's NT_X86_XSTATE and
//! Intel's XSAVE for a state entry, of which everything after its header is taken. Notes of other kinds are skipped. What the
//! contracts don't say is whether the registers are those that a thread had.
#![tactic(auto)]

mod entry;
mod error;
mod rows;
mod sets;
mod stacks;
mod state;
mod status;
mod threads;
mod vector;
mod words;

pub use error::NoteError;
pub use rows::worked_notes;
pub use sets::{RegisterSet, register_sets};
pub use stacks::{StackRegisters, random_address, stack_registers};
pub use threads::Threads;
