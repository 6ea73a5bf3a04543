//! A core and its log that were read in one pass.

use leak_blocks::{Replayed, SmallSpans};
use leak_mtrace::LogError;
use leak_replaying::KeptTexts;
use leak_sparse::SparseWords;

/// A core and its log, read in one pass.
#[derive(Drop)]
pub struct Passed {
    /// The core's head, or the whole core.
    pub held: Vec<u8>,
    /// What is kept of the words behind the head. If the whole core is held, no words.
    pub words: SparseWords,
    /// How many bytes the core has behind what is held.
    pub len: u64,
    /// The bytes of the log.
    pub log: Vec<u8>,
    /// What was read of the log: its live blocks and the spans whose freed places are left out, or its first fault.
    pub read: Result<(Replayed, SmallSpans), LogError>,
}

/// A core and its log, read in one pass, without the bytes of the log: a report needs only the texts of callers.
#[derive(Drop)]
pub struct PassedByTexts {
    /// The core's head, or the whole core.
    pub held: Vec<u8>,
    /// What is kept of the words behind the head. If the whole core is held, no words.
    pub words: SparseWords,
    /// How many bytes the core has behind what is held.
    pub len: u64,
    /// The texts of the live blocks' callers.
    pub texts: KeptTexts,
    /// What was read of the log: its live blocks and the spans whose freed places are left out, or its first fault.
    /// Without memory for the texts it is want of memory.
    pub read: Result<(Replayed, SmallSpans), LogError>,
}
