//! The texts of refusals, as the program prints them.
//!
//! Each error of the crates below has a text that is defined in `specs/`, down to its numbers, and a function that appends it.
//! Those of inputs: [`push_find`], with [`push_core`], [`push_notes`] and [`push_log`]; of readers and writers: [`push_read`] and
//! [`push_write`]; of a command line: [`push_usage`]; of a file that can't be opened: [`push_reason`].
//!
//! The errors' own `Display` says the same, which tests show: no contract speaks of a derived one.

mod inputs;
mod laws;
mod opening;
mod streams;
mod words;

pub use inputs::{push_core, push_find, push_log, push_notes};
pub use laws::texts_are_shown;
pub use opening::push_reason;
pub use streams::{push_read, push_write};
pub use words::{push_displace, push_usage};
