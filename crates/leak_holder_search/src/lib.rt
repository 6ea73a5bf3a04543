//! Who holds the memory: which callers' blocks keep which blocks from leaking.
//!
//! Blocks go by the text of their caller in the log. A text holds a block if a chain of words reaches the block from the roots,
//! and no chain does so without passing a block of that text. [`find_holders`] searches a core and its log, and tells for each
//! text that holds a block how many it holds and how many bytes they have, how many of its own blocks are reached, how many
//! other texts hold all of these, and the address of the first of them, for the question why it is held. With an earlier log of the
//! same process ([`Files`]) only blocks of later lines are counted. [`find_held`] answers a question about chosen
//! blocks. [`find_holders_in`] and [`find_held_in`] do the same for an input that was read. Its core can be let go once
//! [`list_for_holders`] listed what its words lead to: [`find_listed_holders`] and [`find_listed_held`] go on from there.
//!
//! `specs/Holders.antt` says what the report tells, and `specs/Text.antt` has its lines. For every accepted input, every
//! number of workers and every cutting of the work the report is the same. If an input is not accepted, the answer is the
//! first refusal by the order of [`FindError`](leak_search::FindError).
//!
//! A block of 32 bytes that a word of writable memory leads to:
//!
//! ```text
//! use leak_elf::core_k;
//! use leak_holder_search::{Files, Silent, find_holders};
//! use leak_search::Rules;
//! use leak_pool::Plan;
//!
//! let core = core_k(alloc, &[(0x10008, 0x10100)])?;
//! let log = b"@ ./a.out:[0x401136] + 0x10100 0x20\n";
//! let files = Files { core: &core, log, since: None };
//! let plan = Plan::new(4, 1024, 256)?;
//! let found = find_holders(rt, alloc, &files, Rules::usual(), plan, &Silent)?;
//! // Its last line is 'holder 1 32 1 32 0 0x10100 ./a.out:[0x401136]'
//! ```
//!
//! The contracts don't say that a log is complete, or how long it takes: it marks once for each 64 texts.
#![tactic(auto)]

mod analysis;
mod choosing;
mod files;
mod held;
mod held_report;
mod listing;
mod logs;
mod question;
mod ranking;
mod report;
mod search;
mod since;

pub use files::Files;
pub use leak_holders::{Progress, Silent};
pub use listing::{ListedCore, list_for_holders};
pub use logs::Logs;
pub use question::{find_held, find_held_in, find_listed_held};
pub use search::{Holding, find_holders, find_holders_in, find_listed_holders};
