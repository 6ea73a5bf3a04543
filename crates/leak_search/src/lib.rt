//! Searches of one core, and of two cores of one process, for leaked blocks.
//!
//! For every accepted input, every number of workers and every cutting of the work, the report is that of one thread: the
//! live blocks to which no chain of words leads from the roots or, with two cores, from the kept and new blocks. Each
//! other marked block is claimed by exactly one worker, and no block that can be reached in the second core is reported.
//! If an input is not accepted, the answer is the first refusal by the order of [`FindError`].
//!
//! [`find_one`] searches one core by worker threads, and [`find_two`] a later core from what an earlier one says. [`find_why`] tells
//! why a block is held. The program goes by these three: each by [`Rules`], and those with threads by [`Workers`].
//! [`find_alone`], which searches one core on the caller's thread, under the promise of [`find_one`], is for libraries and
//! tests. `specs/Search.antt` says what a leak, a root and a chain are and, for two cores, `specs/SearchTwo.antt`.
//!
//! An input is a core and the log of its allocations. [`read_input`] reads it or gives its first fault, and [`read_two`]
//! reads two of one process; [`input_of`] makes it of a core (if that is accepted, else [`at_core`]) and, by [`read_log`], of a
//! log that were read one by one, and
//! [`find_in`] searches it, with the log. Without the log, [`search_from`] does once [`consistency_of_one`] has told which
//! blocks fit: of what that finds, a [`Searched`], [`found_of`] makes the report. `specs/Searched.antt` says what it is; `specs/Inputs.antt` says what an accepted input is, and which of its faults comes first.
//! Where the words of a core are to be let go before it is marked, [`list_input`] lists first what they lead to, as a
//! [`ListedInput`], and [`search_listed`] searches that, with the result of [`search_from`]. `specs/Listed.antt` says what it is.
//! [`is_continued`] compares two logs, and [`count_lines`] counts the complete lines of one.
//! [`consistency_of_one`], by a team [`consistency_of_one_by`], and [`consistency_of_two`] say what is odd about inputs. [`find_roots_and_index`] finds the root words, by
//! [`find_roots`], and makes the lookup, and [`mark_input`] marks blocks over them by workers. [`head_of`] gives the
//! numbers of a report's first lines, and [`searched_of`] tells the heads among the blocks that are not marked.
//!
//! An allocation of 32 bytes, and a core in which no word leads to it:
//!
//! ```text
//! use leak_elf::core_k;
//! use leak_search::{Rules, find_alone};
//!
//! let core = core_k(alloc, &[])?;
//! let log = b"@ ./a.out:[0x401136] + 0x10100 0x20\n";
//! let found = find_alone(alloc, &core, log, Rules::usual(), false)?;
//! assert_eq!(rt; found.leaked, 1);
//! ```
//!
//! The contracts don't say that a log is complete, that two cores are of one process, that a reported block is a fault of
//! the program, or how long a search takes.
#![tactic(auto)]

mod alone;
mod error;
mod found;
mod inputs;
mod laws;
mod listed;
mod listing;
mod listing_input;
mod marking;
mod one_core;
mod pairs;
mod preparing;
mod reporting;
mod rules;
mod signing;
mod two_cores;
mod why;

pub use alone::find_alone;
pub use error::{FindError, at_core};
pub use found::{Found, Searched};
pub use inputs::{Input, find_roots, input_of, read_input, read_log};
pub use laws::{leaked_stay_leaked, leaked_stay_leaked_without_ends};
pub use listed::ListedInput;
pub use listing::{list_input, list_whole_input, search_listed};
pub use marking::{RootsAndIndex, Workers, find_roots_and_index, mark_input};
pub use one_core::{find_in, find_one, search_from};
pub use pairs::{Inputs, count_lines, is_continued, read_two};
pub use reporting::{found_of, head_of, searched_of};
pub use rules::Rules;
pub use signing::{Consistency, consistency_of_one, consistency_of_one_by, consistency_of_two};
pub use two_cores::find_two;
pub use why::{Why, WhyError, find_why};
