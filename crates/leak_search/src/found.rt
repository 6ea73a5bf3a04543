//! What a search gives.

use leak_report::{Head, Signs};

/// What a search found in an input, but for the report. Live blocks count from 0 by ascending start.
#[derive(Drop)]
pub struct Searched {
    /// The numbers of the report's first lines.
    pub head: Head,
    /// For each live block, whether it is marked.
    pub set: Vec<bool>,
    /// For each live block, whether it is a head if it leaked. Those of marked blocks say nothing.
    pub heads: Vec<bool>,
    /// For each live block, whether it fits its core, if the report is to tell that.
    pub fits: Option<Vec<bool>>,
    /// For each worker, the numbers of the blocks that it claimed.
    pub claims: Vec<Vec<u32>>,
    /// What is odd about each input, as [`Found`] has it.
    pub signs: Vec<Signs>,
}

/// The report of a search.
#[derive(Drop)]
pub struct Found {
    /// The lines of the report, each with its line feed.
    pub report: Vec<u8>,
    /// How many blocks leaked.
    pub leaked: u64,
    /// For each worker, the numbers of the blocks that it claimed. Live blocks count from 0 by ascending start.
    pub claims: Vec<Vec<u32>>,
    /// What is odd about each input, in order: with two cores, the first core and its log, and then the second.
    pub signs: Vec<Signs>,
}
