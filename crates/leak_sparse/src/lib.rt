//! A growing list of 64-bit words that keeps only those that aren't 0.
//!
//! [`SparseWords`] is for lists of which most words are 0, such as the words of a core if those that lead nowhere are
//! kept as 0. 64 places make a group, and 16 bytes say which of its words are kept and how many are kept before it. So
//! a word that is 0 takes two bits, and any other 8 bytes more. Reading a word takes constant time, and the search for
//! the next word that isn't 0 skips 64 zeros at a time; [`SparseWords::skip_zeros`] skips those of one group.
//! [`SparseWords::kept_between`] gives those of a range that aren't 0, in constant time. [`SparseWords::push_group`]
//! appends 64 words at once, and [`SparseWords::append`] joins lists that were built separately: it copies whole groups.
//! [`SparseWords::retain_between`] puts 0 in place of the words below or above two bounds, and needs no further memory.
//! [`worked_words`] has worked rows of the definitions.
//!
//! A million zeros, and 5:
//!
//! ```text
//! use leak_sparse::SparseWords;
//!
//! let mut words = SparseWords::new(alloc);
//! words.push_zeros(1_000_000)?;
//! words.push(5)?;
//! assert_eq!(rt; words.len(), 1_000_001);
//! assert_eq!(rt; words.kept(), 1);
//! assert_eq!(rt; words.get(7), Some(0));
//! assert_eq!(rt; words.next_kept(7), Some(1_000_000));
//! ```
//!
//! Contracts see the plain list of the words; `specs/Groups.antt` says which words the groups and the kept words stand
//! for. Zeros for which the last group has room are always accepted. No contract says how much memory the list takes,
//! or how long a call takes.
#![tactic(auto)]

mod group;
mod laws;
mod pushing;
mod retaining;
mod words;

pub use laws::worked_words;
pub use words::SparseWords;
