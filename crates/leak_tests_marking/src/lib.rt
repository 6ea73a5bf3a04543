//! Tests of the crates that mark blocks, by workers and without sets of blocks, crate by crate.
//!
//! They are in a crate of their own, so that those crates are proved once, without their tests.
#![tactic(auto)]

// Comparisons that end a test.
#[cfg(test)]
mod comparisons;

// Live blocks of a log.
#[cfg(test)]
mod samples;

// Words of a core that two workers ask for at the same time.
#[cfg(test)]
mod appointment;

// Marking by workers.
#[cfg(test)]
mod pool;

// Pages of two cores that differ.
#[cfg(test)]
mod later;

// Two cores with many kept blocks.
#[cfg(test)]
mod later_many_kept;

// Claims of the first core that are traced in the second.
#[cfg(test)]
mod later_retracing;

// Kept and new blocks that are scanned again at the same time.
#[cfg(test)]
mod later_at_once;

// Blocks that lead to blocks, as lists.
#[cfg(test)]
mod lists;

// Which numbers hold each block.
#[cfg(test)]
mod holders;

// The same as one plain marking for each number.
#[cfg(test)]
mod plain;
