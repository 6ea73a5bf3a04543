//! Reads an x86-64 ELF core file: its segments, its notes and the words of its memory.
//!
//! [`Image::read`] accepts the bytes of a file or gives the first reason against it, an [`ElfError`].
//! An [`Image`] borrows those bytes. It gives segments by ascending address, the parts of the file
//! that hold notes, and, as [`Words`], the word at each address that is dumped. [`core_k`] makes the
//! sample core that the program searches if it is given no word. [`Image::bytes_of`], the dumped bytes
//! of one segment, is for libraries and tests.
//!
//! [`Image::passed`] does the same where only the head of a file is held: its first bytes, with all headers and notes.
//! What is behind them is a [`Rest`], which gives the file's words alone, and may pass over zeros, or leave them out.
//! [`head_of`] says how long the head is, and [`segments_in`] which segments the file has.
//!
//! The rules are those of the System V gABI and elf(5). Bytes past the file size of a segment are
//! not in the file, so they are no words, and no zeros are made up for them. Of section headers only
//! the number of program headers is read, if there are too many for the file header to number.
//! What the contracts don't say is whether the file is a true picture of a process.
#![tactic(auto)]

mod error;
mod fields;
mod first;
mod head;
mod header;
mod image;
mod laws;
mod layout;
mod refusal;
mod rest;
mod sample;
mod search;
mod segment;
mod words;

pub use error::ElfError;
pub use first::segments_in;
pub use head::{Head, head_of};
pub use image::Image;
pub use laws::{faults_are_plain, words_are_plain};
pub use rest::{NoRest, Rest};
pub use sample::core_k;
pub use segment::{NotePart, Segment};
pub use words::Words;
