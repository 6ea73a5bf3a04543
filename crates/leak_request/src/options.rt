//! What the program was asked for.

use leak_holders::Question;
use leak_index::Reading;
use leak_pool::Plan;
use leak_roots::Skip;

/// The largest core that the program reads, in bytes: 64 GiB.
pub const CORE_LIMIT: u64 = 68_719_476_736;

/// The largest log that the program reads, in bytes: 4 GiB.
pub const LOG_LIMIT: u64 = 4_294_967_296;

/// How a search is made.
#[derive(Clone, Copy, Debug)]
pub struct Options {
    /// Whether there are two cores and two logs.
    pub two: bool,
    /// The distances from a block's start at which a word keeps the block.
    pub reading: Reading,
    /// What is left out of the root words.
    pub skip: Skip,
    /// How sifting and marking are shared among the workers.
    pub plan: Plan,
    /// Whether the blocks are of another allocator than glibc's, whose heap says nothing of them.
    pub other_heap: bool,
    /// Whether the report names the live blocks that don't fit the core.
    pub check: bool,
    /// Whether a warning has a status of its own.
    pub strict: bool,
    /// The largest core that is read, in bytes.
    pub core_limit: u64,
    /// The largest log that is read, in bytes.
    pub log_limit: u64,
}

/// A search for leaks.
#[derive(Debug, Drop)]
pub struct SearchRequest {
    /// The paths of the files in order: a core and its log; with two cores, the second core and its log follow.
    pub paths: Vec<String>,
    /// How they are searched.
    pub options: Options,
}

/// A question what holds a block.
#[derive(Debug, Drop)]
pub struct WhyRequest {
    /// The paths of a core and of its log.
    pub paths: Vec<String>,
    /// How the block is asked for: `two` is false, and the plan is not used.
    pub options: Options,
    /// The address of the live block.
    pub address: u64,
}

/// A question who holds the memory.
#[derive(Debug, Drop)]
pub struct HoldersRequest {
    /// The paths of a core and of its log and, if only later blocks count, of an earlier log of the process.
    pub paths: Vec<String>,
    /// How the core is searched: `two` and `check` are false.
    pub options: Options,
    /// What is asked about some blocks. Without it: who holds what.
    pub question: Option<Question>,
}

/// How it is told what grew.
#[derive(Clone, Copy, Debug)]
pub struct GrowOptions {
    /// Whether a warning has a status of its own.
    pub strict: bool,
    /// The largest log that is read, in bytes.
    pub log_limit: u64,
}

/// A question what grew between two logs.
#[derive(Debug, Drop)]
pub struct GrowRequest {
    /// The paths of an earlier and of a later log of one process.
    pub paths: Vec<String>,
    /// How it is told.
    pub options: GrowOptions,
}

/// What a command line asks for.
#[derive(Debug, Drop)]
pub enum Request {
    /// Leaks, in one core or in two.
    Search(SearchRequest),
    /// What holds a block.
    Why(WhyRequest),
    /// Who holds the memory.
    Holders(HoldersRequest),
    /// What grew between two logs.
    Grow(GrowRequest),
    /// Help, or the version: the text, which is clap's.
    Text(String),
}
