//! Lemmas about lists and sums, which the proofs of several crates rest on. There is no code in it.
#![tactic(auto)]
