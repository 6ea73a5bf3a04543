//! Finds dead stack: the words of a thread's stack below those that its functions use.
//!
//! [`dead_spans`] goes over the threads of a core. Where the stack of a thread lies, its own record tells, which the C library
//! keeps at fs_base, or, for the first stack, the address AT_RANDOM. How low its functions go, the stack pointer tells, and the
//! frames of signal handlers on alternate stacks within the stack.
//!
//! That what lies below the stack pointer and its red zone is nobody's is the rule of the System V ABI for x86-64. What the
//! contracts don't say is whether a program keeps to it, nor whether the words that look like a thread's record are one: where
//! two pairs of words do, or none, nothing is dead.
#![tactic(auto)]

mod dead;
mod first;
mod low;
mod stack;

pub use dead::dead_spans;
