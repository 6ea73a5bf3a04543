//! Texts that are each kept once, by number.
//!
//! [`TextTable`] numbers texts in the order in which they are first met. A text that was met before keeps the number that
//! it has, and takes no memory. It is looked for first among 256 numbers that were given lately, and then in a tree, by its
//! last eight bytes, then by all of them. [`TextTable::finish`] gives the texts one after another, and the range of each.
//! [`gather`] picks from a list of numbers those at some places. [`worked_texts`] has worked rows of the definitions.
//!
//! Two texts, of which the first is met again:
//!
//! ```text
//! use leak_texts::TextTable;
//!
//! let mut table = TextTable::new(alloc);
//! assert_eq!(rt; table.number(b"./app:[0x11cb]")?, 0);
//! assert_eq!(rt; table.number(b"./app:[0x11d5]")?, 1);
//! assert_eq!(rt; table.number(b"./app:[0x11cb]")?, 0);
//! assert_eq!(rt; table.len(), 2);
//! ```
//!
//! Contracts see the list of the texts. They don't say how much memory the table takes, or how long a call takes.
#![tactic(auto)]

mod gathering;
mod key;
mod laws;
mod slot;
mod table;

pub use gathering::gather;
pub use laws::worked_texts;
pub use table::TextTable;
