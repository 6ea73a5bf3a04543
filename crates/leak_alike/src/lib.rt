//! Laws of cores that a search can't tell apart. Each is a function that does nothing: its contract is the law.
//!
//! - **Which words don't matter**: [`words_that_lead_nowhere`], [`holders_of_alike_cores`],
//!   [`refusals_of_alike_cores`], [`words_outside_the_blocks`], [`asked_words_are_near_blocks`].
//! - **A core read in one pass**, of which a sieve keeps some words: [`files_of_one_head`],
//!   [`sifted_cores_are_alike`], [`searches_of_sifted_cores`], [`holders_of_sifted_cores`],
//!   [`listings_are_one`], [`pruned_cores_are_marked_alike`].
//! - **Worked rows**: [`worked_alike`], [`worked_sifted`].
#![tactic(auto)]

mod alike;
mod sifted;

pub use alike::{
    asked_words_are_near_blocks, holders_of_alike_cores, refusals_of_alike_cores,
    words_outside_the_blocks, words_that_lead_nowhere, worked_alike,
};
pub use sifted::{
    files_of_one_head, holders_of_sifted_cores, listings_are_one, pruned_cores_are_marked_alike,
    searches_of_sifted_cores, sifted_cores_are_alike, worked_sifted,
};
