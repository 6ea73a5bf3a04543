//! Inputs that several crates of tests read: readers and writers that are slow, fail or are interrupted, and the log of one
//! block with its reports.
//!
//! They are in a crate of their own, so that each crate of tests can begin once the crates that it tests are proved.
#![tactic(auto)]

pub mod examples;
pub mod fakes;
