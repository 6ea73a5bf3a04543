//! Claims of blocks by several workers: each marked block gets one owner.
//!
//! Blocks are numbers below a count. [`Marks`] has one bit for each block in the words of an `atomic_table`, where
//! one `fetch_or` is one attempt at a claim. A thread claims through a [`MarkSeat`] of its own, which is split off
//! before the thread starts and joined after it ends. [`laws`] says what lawful, complete runs of attempts come
//! to: the blocks that a chain of words reaches, each on one worker's list. [`Claims`], the same on one thread, with one
//! list of claimed blocks for each worker, is for libraries and tests.
//!
//! Sources: chains and reach are bdwgc's (an object is accessible if a chain of pointers leads to it from a
//! root), marking again from a start is that of Boehm, Demers and Shenker (PLDI 1991). Claims, seats and shares
//! are own rules: a mark bit alone doesn't say who set it, and a share tells when all seats are back.
//!
//! The contracts don't say which of two seats wins a block, in which order blocks are claimed, or how fast. No
//! call takes a lock or waits.
#![tactic(auto)]

mod bits;
mod claims;
pub mod laws;
mod marks;
mod rule;
mod seat;
mod view;

pub use bits::is_marked;
pub use claims::Claims;
pub use marks::Marks;
pub use seat::MarkSeat;
