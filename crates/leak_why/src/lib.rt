//! Why a block is held: the words that lead to it from a root.
//!
//! [`why`] looks for the blocks that root words lead to, then for those that these lead to, and so on, breadth first,
//! and keeps for each block what led to it first. So the [`Chain`] that it gives is a shortest one, and if there
//! is none, the block is leaked. [`block_at`] finds the block that an address lies in.
//!
//! Chains are those of bdwgc's marking: an object is kept if a chain of pointers leads to it from a root. Which of
//! several shortest chains is told is not promised; it is the same for equal inputs. The contracts don't say whether a
//! word of the chain is a pointer, or how long a search takes.
#![tactic(auto)]

mod asked;
mod chain;
mod finding;
mod reached_block;
mod spreading;
mod telling;
mod tracing;
mod why_block;

pub use asked::block_at;
pub use chain::{Chain, Link, RootPlace, RootWord};
pub use telling::{push_numbered, text};
pub use why_block::why;
