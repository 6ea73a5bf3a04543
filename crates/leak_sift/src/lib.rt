//! Which words of a core are kept while it is read.
//!
//! A search needs few words of a core: those that may point to a live block, and those that malloc's rules read as
//! something else than a pointer. [`Sieve`] takes the live blocks of a log and returns each word of a core that is
//! kept, and 0 for each other one. It keeps a word if it lies between the start of the first block and the end of the
//! last, or if its place is near a block: where the size word of its chunk is, or where those of the next chunks or a
//! link may be.
//!
//! [`Sifting`] takes the bytes of a core file as they pass, in pieces of any length, and returns the kept words as a
//! `leak_sparse::SparseWords`: one word for each 8 bytes. The segments tell where these lie in memory. They must be
//! orderly, which [`are_orderly`] tells: in the file they have the order of their addresses. A piece of many bytes is
//! sifted by a `leak_team::Team`, whose workers take a part of it each; how many there are changes nothing of what is kept.
//!
//! Which words are kept is own rule; `leak_alike` is about searches of a core that has 0 in place of the others. Words that
//! tell of stacks are not considered here. The contracts don't say that the bytes are those of the file that has the
//! segments.
#![tactic(auto)]

mod appending;
mod behind;
mod group;
mod laws;
mod near;
mod orderly;
mod places;
mod sieve;
mod sifting;
mod threads;
mod waiting;
mod words;

pub use behind::Behind;
pub use laws::{worked_siftings, worked_words};
pub use orderly::are_orderly;
pub use sieve::{Sieve, range_of};
pub use sifting::Sifting;
