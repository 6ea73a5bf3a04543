//! Signs that a core and a log do not belong together: live blocks of which the core has no chunk in use.
//!
//! glibc's malloc keeps the size of each chunk before the block that it serves, and in the next chunk whether this
//! one is in use. [`fits`] compares that with the live blocks of a log: a block that the core's heap does not have as the
//! log has it was given back, or is of another moment or another process. [`count_misfits`], or by a team [`count_misfits_by`],
//! counts such blocks.
//!
//! By the same words [`is_free_link`] tells a link of malloc to a free chunk from a pointer of the program:
//! the words of malloc's lists, and its pointers to the tops of heaps, are addresses of headers, which are in the last bytes
//! of the block before them, or one past its end. [`without_free_links`] removes such a block from those that a word leads to.
//!
//! And they tell the slack of a block: the bytes that malloc gave it beyond those that were asked for. [`slack_spans`] finds that of
//! all live blocks that fit.
//!
//! The rule is that of `struct malloc_chunk` in glibc's malloc.c, on a machine with words of 8 bytes. What it reads is
//! any `leak_elf::Words`. The contracts don't say that a block which fits is of this log: another one of its size at its
//! address fits as well. They say nothing of other allocators, whose blocks have no such words.
#![tactic(auto)]

mod chunk;
mod fitting;
mod free_link;
mod laws;
mod near;
mod slack;
mod threads;

pub use fitting::{count_misfits, fits};
pub use free_link::{is_free_link, without_free_links};
pub use laws::{worked_chunks, worked_hits, worked_links, worked_slack};
pub use slack::slack_spans;
pub use threads::count_misfits_by;
