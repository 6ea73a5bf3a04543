//! A core and its log are read in one pass: of a core that is sifted only the words that a search needs are kept.
//!
//! [`read_passing`] reads a core up to the end of its head, then the log, then the rest of the core piece by piece,
//! through a `leak_sift::Sifting`. Of three workers or more, one reads on while the others sift the last piece. It
//! returns a [`Passed`]: the head, the words that are kept, and the log with what was read of it.
//! [`read_passing_by_texts`] replays the log while it is read, by `leak_replaying`, and holds no more of it than a
//! piece and a line. It returns a [`PassedByTexts`], which has the texts of the live blocks' callers in place of the
//! log. [`find_passed`] searches this, and gives what `leak_search::find_one` gives for the whole core. It lists first
//! what the words lead to, and lets go of them before it marks. Of a [`Passed`] [`find_passed_holders`] and
//! [`find_passed_held`] give what `leak_holder_search::find_holders` and `find_held` give.
//!
//! Some cores are read whole, before the log: those without such a head, with a head of more than 64 MiB, or with
//! segments that a header refuses or that are not orderly; and all cores if dead stack is left out, since a sieve does
//! not keep the words that tell of stacks.
//!
//! `specs/Passed.antt` says what a passed core and log are, and when a passing is refused.
//!
//! The contracts don't say how much memory is taken, nor which cores are sifted.
#![tactic(auto)]

mod ahead;
mod begun;
mod fault;
mod finding;
mod holding;
mod keeping;
mod opening;
mod passed;
mod passing;
mod pieces;
mod pruning;
mod reporting;
mod sifted;

pub use fault::PassingFault;
pub use finding::find_passed;
pub use holding::{find_passed_held, find_passed_holders};
pub use leak_replaying::{KeptTexts, Numbers};
pub use passed::{Passed, PassedByTexts};
pub use passing::{Limits, read_passing, read_passing_by_texts};
