//! Marks the blocks that chains of words reach from the roots, by worker threads or alone.
//!
//! A core that the program passes it lists by [`list_core`], and lets go of: a [`Listing`] has what each block leads to, and the
//! blocks that root words lead to. Both can also be listed side by side, by [`list_blocks`] and [`first_blocks`]. The workers of
//! a [`Plan`] mark over that ([`mark_by_listing`]), and [`heads_by_edges`] tells which of the other blocks are heads; who holds
//! the memory is told by marking over it, too. Another core it marks by [`mark_by_edges`]: the workers list first what each block
//! leads to, and then mark over these lists; if those pass an [`EdgeRoom`], they mark over the words. In the later of two cores
//! it marks by [`mark_from`], over the words, from blocks that are marked already ([`Start`]). Each gives a [`Marked`]: for each
//! block whether it is marked, the blocks that each worker claimed, and the number of rounds. Before it lists or marks one core it lets go of the root words that lead nowhere, by [`leading_roots`] and
//! the workers of a `leak_team::Team`, or finds only the others, by [`find_leading_roots`]. Where the memory has words without
//! zeros at once, as a sifted core has, these calls and the listing take no others.
//!
//! [`mark`], which marks one core over its words, and [`mark_alone`], which does so on the caller's thread, are for libraries
//! and tests. So are gates ([`Gate`]) that hold a worker: the program's is [`Open`].
//!
//! Marking goes by rounds. A worker puts the blocks that it claims on its stack while that has fewer entries than the plan
//! says; the others are left for the next round. Before its next items it scans what is on the stack, unless that are so few
//! blocks that more can be scanned at once.
//!
//! Sources: bdwgc's marking (an object is kept if a chain of words leads to it from a root); Boehm, Demers and
//! Shenker, PLDI 1991, for marking from an earlier state. Rounds, pieces, stacks and claims are own rule.
//!
//! The contracts say which worker claimed what, round by round (specs/Course.antt), that over these rounds each worker
//! passes the gate at a step for each item of its shares, and how many rounds there are with stacks of no entry, or alone.
//! That a worker makes no other step in a round, an inner contract says (`worker::work`).
//!
//! No contract says that two workers run at the same time, that a step passes the gate before its item is scanned, that a
//! door calls its gate only once at each step, or that stacks make the rounds fewer: tests show these.
#![tactic(auto)]

mod alone;
mod appending;
mod block_lists;
mod claiming;
mod door;
mod edges;
mod error;
mod first;
mod gate;
mod hand;
mod items;
mod later_rounds;
mod leading;
mod leading_found;
mod listing;
mod listing_blocks;
mod listing_core;
mod listing_heads;
mod marked;
mod marking;
mod marking_by_edges;
mod marking_by_listing;
mod marking_by_rounds;
mod marking_state;
mod plan;
mod room;
mod rounds;
mod rows;
mod scope;
mod search;
mod sharing;
mod start;
mod target_list;
mod target_source;
mod task;
mod worker;

pub use alone::mark_alone;
pub use block_lists::BlockLists;
pub use edges::share_of;
pub use error::PoolError;
pub use first::first_blocks;
pub use gate::{Gate, Open};
pub use leading::leading_roots;
pub use leading_found::find_leading_roots;
pub use listing::Listing;
pub use listing_blocks::list_blocks;
pub use listing_core::list_core;
pub use listing_heads::heads_by_edges;
pub use marked::Marked;
pub use marking::{mark, mark_from};
pub use marking_by_edges::mark_by_edges;
pub use marking_by_listing::mark_by_listing;
pub use plan::{Plan, PlanError};
pub use room::EdgeRoom;
pub use scope::of_memory;
pub use start::{Part, Start};
