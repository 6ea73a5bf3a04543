//! The blocks that the words of a range of memory lead to.
//!
//! [`Targets`] goes over words in order and yields, for each, the numbers of the blocks that it leads to: over an
//! address range, over words that are given as a list, as registers are, and over the words of a block, all of them
//! or those on listed [`Pages`]. What it reads is any `leak_elf::Words`, what it asks any `leak_index::Lookup`. A range of
//! root words can be scanned without malloc's links to free chunks, as `leak_chunks` tells them.
//!
//! It takes words in runs if the memory has them, and steps from word to word otherwise, so that a block of 2^60
//! bytes of which a page is dumped costs no more than that page. A word that leads nowhere yields nothing; if 0 is one,
//! it takes the words of a range without zeros if the memory has them so, and else the steps pass over zeros as far as
//! the memory can.
//!
//! Who lists what all blocks lead to takes the bytes of one block after another from [`BlockRuns`], and what their words lead
//! to from [`list_run`]. If the memory has the words without zeros, [`kept_in_block`] gives those of a block and [`kept_between`]
//! those of a range, as long as 0 leads nowhere; [`list_words`] lists what they lead to, and [`lead_somewhere`] asks whether they do.
//! [`heads`] tells which of the leaked blocks, which [`leaked`] tells, no other leads to. [`Pages::numbers`] and [`Pages::has`]
//! are for libraries and tests.
//!
//! The words of a block are the aligned ones that lie completely inside it, as bdwgc scans an object. Pages of 4096
//! addresses are those of x86-64. The contracts don't say how much is read.
#![tactic(auto)]

mod block_runs;
mod first;
mod head_blocks;
mod kept_words;
mod laws;
mod pages;
mod position;
mod reading;
mod root_words;
mod run_targets;
mod scan;
mod targets;

pub use block_runs::BlockRuns;
pub use first::lead_somewhere;
pub use head_blocks::{heads, leaked};
pub use kept_words::{kept_between, kept_in_block};
pub use laws::{ranges_lead_less, targets_are_blocks, worked_heads, worked_targets};
pub use pages::Pages;
pub use run_targets::{list_run, list_words};
pub use targets::Targets;
