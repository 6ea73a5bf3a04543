//! Why the program ends without a report.

use leak_search::FindError;
use leak_streams::{ReadFault, WriteFault};
use thiserror::Error;

/// Why a run gives no status, in the order in which the reasons are tried. A block can be missing only if one is asked for.
#[derive(Clone, Copy, Debug, PartialEq, Eq, Error)]
pub enum RunFault {
    /// The reader with the number, from 1, was not read to its end. Nothing was written.
    #[error("reader {0}: {1}")]
    Read(u8, ReadFault),
    /// The search gives no report, or no answer. Nothing was written.
    #[error("{0}")]
    Find(FindError),
    /// No live block has a byte at the address, or begins there. Nothing was written.
    #[error("no live block holds 0x{0:x}")]
    NoBlock(u64),
    /// The report, or the answer, was not written completely.
    #[error("{0}")]
    Write(WriteFault),
}
