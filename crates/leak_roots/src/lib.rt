//! Finds the root words of a core, from which marking starts, and cuts them into pieces.
//!
//! [`Roots::find`] takes the register words of all threads, and the words in writable segments, or in all, that share
//! no byte with a live block: globals, stacks, and what the allocator keeps between blocks. [`Roots`] holds memory as
//! ranges of addresses, so it is small. [`Roots::find_where`] keeps only the ranges that a [`RangeTest`] keeps.
//! [`Roots::pieces`] makes [`Piece`]s of it, units of work of bounded size: it gives each by its number, and lists none.
//! [`Roots::cut`], which lists them all, and [`Skip::spans`], which takes the spans of freed memory from the lines of a log,
//! are for libraries and tests.
//!
//! Registers and writable memory are roots after bdwgc, all readable memory after LeakSanitizer. Own rule: freed memory and
//! dead stack are roots too, so that no stack limit is read from a register. If the spans of small allocations are given, the
//! words of freed memory are left out: those whose 8 bytes each lie in such a span. [`Roots::skip_slack`] leaves out those
//! within slack, what malloc gave live blocks beyond what was asked for, and [`Roots::skip_dead`] those within dead stack. What the contracts don't say is whether a root word
//! is a pointer.
#![tactic(auto)]

mod error;
mod inside;
mod laws;
mod piece;
mod pieces;
mod places;
mod range_test;
mod roots;
mod rows;
mod skip;

pub use error::CutError;
pub use laws::pieces_hold_root_words;
pub use piece::Piece;
pub use pieces::Pieces;
pub use range_test::{AllRanges, RangeTest};
pub use roots::Roots;
pub use rows::worked_roots;
pub use skip::{Exclusions, Skip};
