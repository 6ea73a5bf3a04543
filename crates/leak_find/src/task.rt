//! What is asked of the inputs of a run.

ghost use Rattle.std.specs.Prelude.{◌≡◌};
ghost use Rattle.leak_find.specs.Tasks.{is_strict, limit_at, limit_beside};

use leak_holders::Question;
use leak_request::{GrowOptions, Options};

/// What is asked of the inputs of a run.
#[derive(Clone, Copy, Debug)]
pub enum Task {
    /// Which blocks leaked: of a core and its log, or of two cores, each with its log.
    Search(Options),
    /// What holds the live block of the address: of a core and its log. Of the options `two`, `check` and the plan are not used.
    Why(Options, u64),
    /// Who holds the memory, or the answer to the question: of a core, its log and, if only later blocks count, an earlier
    /// log. Of the options `two` and `check` are not used.
    Holders(Options, Option<Question>),
    /// What grew: of an earlier and a later log.
    Grow(GrowOptions),
}

/// How many bytes the input with the number, from 0, may have.
pub(crate) fn limit_at(task: &Task, number: usize) -> u64
    ensures { result ≡ limit_at task.now number }
{
    match task {
        Task::Search(options) if number % 2 == 0 => options.core_limit,
        Task::Search(options) => options.log_limit,
        Task::Why(options, _) => limit_beside(options, number),
        Task::Holders(options, _) => limit_beside(options, number),
        Task::Grow(options) => options.log_limit,
    }
}

/// How many bytes the input with the number, from 0, may have, if the first is a core and the others are logs.
fn limit_beside(options: &Options, number: usize) -> u64
    ensures { result ≡ limit_beside options.now number }
{
    if number == 0 {
        options.core_limit
    } else {
        options.log_limit
    }
}

/// Whether a warning has a status of its own.
pub(crate) fn is_strict(task: &Task) -> bool
    ensures { result ≡ is_strict task.now }
{
    match task {
        Task::Search(options) => options.strict,
        Task::Why(options, _) => options.strict,
        Task::Holders(options, _) => options.strict,
        Task::Grow(options) => options.strict,
    }
}
