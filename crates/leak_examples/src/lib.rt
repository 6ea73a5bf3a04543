//! Worked inputs of the definitions, computed; and what a small model of a heap says of its blocks.
//!
//! Each function does nothing: its contract is a law about definitions of the crates below. The worked values were made by hand from
//! the rules, not by the program. They show that the definitions that contracts cite mean what they should:
//!
//! - what holds a block, by chains of words in some memory: each kind of root word, chains through other blocks up to one of a
//!   hundred, distances that count and ends that don't, links to free chunks, and blocks to which no chain leads; the texts of
//!   answers, the names of register words, and the block that an address asks for (`worked_chains`, `worked_distances`, `worked_row`,
//!   `worked_answers`, `register_names`, `asked_blocks`);
//! - from the bytes of small cores and logs: the reports of a search of one core and of two, who holds the memory, what chosen blocks
//!   hold and who holds them, why a block is held, and what grew (`worked_searches`, `worked_pairs`, `worked_holders`, `worked_reasons`,
//!   `worked_growths`). For searches, growths and lost blocks the definition allows that report and no other;
//! - which freed memory is left out on both sides of the bound of small allocations, 131,072 bytes (`worked_bounds`);
//! - which words of threads' stacks are dead (`worked_stacks`);
//! - exit statuses (`worked_statuses`).
//!
//! [`blocks_fit_if_in_use`] is about every heap that a list of chunks lays out as bytes: a block fits it exactly if its chunk is in
//! use. So it has no misfit if the live blocks are those of its chunks in use ([`live_heaps_fit`]); [`worked_heap`] computes one such heap.
//! The model has no mappings, and no chunk of a fast bin or of a thread's cache, which are free and say that they are in use.
//!
//! Shortest chains are checked by levels that no word skips, reached blocks by a list in which each is led to by one before it.
#![tactic(auto)]

mod growth;
mod heap;
mod holders;
mod reasons;
mod searches;
mod stacks;
mod statuses;
mod why;

pub use growth::worked_growths;
pub use heap::{blocks_fit_if_in_use, live_heaps_fit, worked_heap};
pub use holders::worked_holders;
pub use reasons::worked_reasons;
pub use searches::{worked_bounds, worked_pairs, worked_searches};
pub use stacks::worked_stacks;
pub use statuses::worked_statuses;
pub use why::{
    asked_blocks, register_names, worked_answers, worked_chains, worked_distances, worked_row,
};
