//! Streams: an input is read to its end, and a text is written out.
//!
//! [`read_sized`] takes all bytes that a reader has, up to a limit, or says why it does not; the reader's size is told, or 0 if
//! it is unknown. [`write`] hands a text to a writer until all of it is taken. The program goes by these two. [`read_all`], which is
//! [`read_sized`] without a size, is for libraries and tests. A [`Reading`] gives an input piece by piece and keeps no more than
//! the last piece; between two pieces its caller may read another input (`specs/Pieces.antt`). Of a reader or a writer they
//! know nothing but its single calls, [`ReadCalls`] and [`WriteCalls`], so their contracts name each call that was made, its answer
//! and the device before and after it: read by read in `specs/Reads.antt`, write by write in `specs/Writes.antt`. Everything that is
//! `Read` has such reads, and everything that is `Write` such writes.
//!
//! What the calls come to if a reader tells the bytes that it has left, and a writer those that it holds, are two laws,
//! [`reads_tell`] and [`writes_tell`].
//!
//! Five bytes within their limit, and one byte over it:
//!
//! ```text
//! use leak_streams::{ReadFault, read_all};
//!
//! let mut five: &[u8] = b"abcde";
//! assert_eq!(rt; read_all(alloc, &mut five, 5)?.as_slice(), b"abcde".as_slice());
//! let mut five: &[u8] = b"abcde";
//! assert_eq!(rt; read_all(alloc, &mut five, 4).err(), Some(ReadFault::TooLong));
//! ```
//!
//! A function `f` is given all bytes within a limit, in pieces of at most `size` bytes:
//!
//! ```text
//! let mut reading = Reading::begin::<R>(alloc, size)?;
//! while reading.next_piece(&mut reader, limit)? {
//!     f(reading.piece());
//! }
//! ```
//!
//! The contracts don't say which bytes a file holds, what becomes of those that it took, or how long a call takes.
#![tactic(auto)]

mod fault;
mod laws;
mod pieces;
mod readers;
mod writers;

pub use fault::{ReadFault, WriteFault};
pub use laws::{reads_tell, writes_tell};
pub use pieces::Reading;
pub use readers::{ReadCalls, read_all, read_sized};
pub use writers::{WriteCalls, write};
