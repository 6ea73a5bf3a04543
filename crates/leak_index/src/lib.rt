//! From a word to the live blocks that it leads to.
//!
//! [`Sorted`] and [`Paged`] take the live blocks of a log and a [`Reading`], and answer as [`Lookup`] which blocks a
//! word leads to, as [`Hits`]: none, one, or two if a block begins at the address after another's last byte.
//! `Sorted` searches among all blocks and takes no memory. `Paged` takes memory for a table of the addresses near which
//! blocks start: if each starts at a multiple of 16, a row for each 1024 addresses, in which bits are counted, and
//! otherwise an entry for each page in which blocks start, whose blocks are searched. A reading says how far from its
//! start a block may be pointed at.
//!
//! The rule follows bdwgc's conservative marking with interior pointers: a word that could be an address into a block
//! keeps it. Own rule: it counts for words of registers and stacks as for all others, the address after the last
//! byte counts too, and both of two neighbors are kept. If a reading leaves ends out, that address does not count, and the
//! first neighbor is not kept. The contracts don't say that a word is a pointer.
#![tactic(auto)]

mod address_place;
mod candidates;
mod directory;
mod error;
mod finder;
mod hits;
mod laws;
mod paged;
mod ranks;
mod reading;
mod sorted;

pub use error::ReadingError;
pub use hits::{Hits, Lookup};
pub use laws::{at_most_two, ends_left_out, hits_are_blocks, worked_words};
pub use paged::Paged;
pub use reading::Reading;
pub use sorted::Sorted;
