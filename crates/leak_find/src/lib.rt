//! The whole search: from the bytes of a core and of a log to the report.
//!
//! For every accepted input, every number of workers and every cutting of the work, the report is that of one thread: the
//! live blocks to which no chain of words leads from the roots or, with two cores, from the kept and new blocks. Each
//! other marked block is claimed by exactly one worker, and no block that can be reached in the second core is reported.
//! If an input is not accepted, the answer is the first refusal by the order of [`FindError`].
//!
//! The program makes a [`Request`] of the words of a command line by [`request`], and runs its [`Task`] by [`run_sized`], from
//! readers that are said to have sizes to writers. A task says what is asked of the inputs:
//!
//! - [`Task::Search`] which blocks leaked: of one core, which is read in one pass and not held (`leak_passing`), with the answer of
//!   [`find_one`]; or of a later core by [`find_two`] from what an earlier one says;
//! - [`Task::Why`] what holds a block, by [`find_why`];
//! - [`Task::Holders`] who holds the memory, with the answer of [`find_holders`], or what some blocks hold, with that
//!   of [`find_held`]: of a core that is read in one pass too;
//! - [`Task::Grow`] what grew between two logs, by [`find_growth`].
//!
//! The searches are in `leak_search`, which also says what a leak, a root and a chain are, in `leak_holder_search` and in `leak_growth`.
//!
//! [`run`] is for libraries and tests: it calls [`run_sized`] without sizes. So are [`find_alone`], which searches one core on the
//! caller's thread under the promise of [`find_one`], and [`read_all`].
//!
//! `specs/Tasks.antt` and `specs/Answers.antt` say for each task what it is asked of, what its answer is, and why there is none.
//! `specs/Run.antt` says what a run does to its readers and writers, over what is known of reading one and of writing to one
//! (`specs/Streams.antt`): [`run_sized`] promises it by each call of a reader and of a writer (`leak_streams`), so also of a
//! file, of whose bytes no contract knows, and [`run`] by the bytes that a reader has left and a writer holds. [`runs_tell`] is
//! the law that each promise by calls is one by bytes too.
//!
//! An allocation of 32 bytes, and a core in which no word leads to it:
//!
//! ```text
//! use leak_elf::core_k;
//! use leak_find::{Rules, find_alone};
//!
//! let core = core_k(alloc, &[])?;
//! let log = b"@ ./a.out:[0x401136] + 0x10100 0x20\n";
//! let found = find_alone(alloc, &core, log, Rules::usual(), false)?;
//! assert_eq!(rt; found.leaked, 1);
//! ```
//!
//! The contracts don't say that a log is complete, that two cores are of one process, that a reported block is a fault of
//! the program, or how long a search takes.
#![tactic(auto)]

mod answer;
mod fault;
mod holding;
mod laws;
mod passing;
mod reading;
mod rules;
mod running;
mod task;

pub use answer::Context;
pub use fault::RunFault;
pub use laws::runs_tell;
pub use leak_growth::{Grown, find_growth};
pub use leak_holder_search::{Files, Holding, Progress, Silent, find_held, find_holders};
pub use leak_holders::{Question, Side};
pub use leak_index::{Reading, ReadingError};
pub use leak_pool::{Gate, Open, Plan, PlanError};
pub use leak_report::{Signs, warnings};
pub use leak_request::{
    CORE_LIMIT, DisplaceFault, GrowOptions, GrowRequest, HoldersRequest, LOG_LIMIT, Options,
    Request, SearchRequest, UsageFault, WhyRequest, read_displace, request,
};
pub use leak_roots::Skip;
pub use leak_search::{
    FindError, Found, Rules, Why, WhyError, Workers, find_alone, find_one, find_two, find_why,
    leaked_stay_leaked,
};
pub use leak_streams::{ReadCalls, ReadFault, WriteCalls, WriteFault, read_all, write};
pub use running::{run, run_sized};
pub use task::Task;
