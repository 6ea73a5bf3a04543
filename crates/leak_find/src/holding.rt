//! The questions who holds the memory: their core is passed.

ghost use Rattle.std.specs.Prelude.{◌≡◌, ◌≢◌, ◌≤◌, ℕ, List, [], ◌∷◌, length, option_map, IfOk, IfErr, MatchOption};
ghost use Rattle.leak_holder_search.specs.Since.{earlier};
ghost use Rattle.leak_passing.specs.Passed.{IsPassed, OfPassed};
ghost use Rattle.leak_search.specs.Signs.{AreSigns};
ghost use Rattle.leak_search.specs.declared.error.FindError.TheVariants.{NoMemory};
ghost use Rattle.leak_search.specs.declared.why.WhyError.TheVariants.{Find as Refused};
ghost use Rattle.leak_find.specs.Answers.{Holds, IsNotHeld};
ghost use Rattle.leak_find.specs.Inputs.{IsReadAt, IsReaderFault};
ghost use Rattle.leak_find.specs.Run.{HasAnswered, IsUnanswered};
ghost use Rattle.leak_find.specs.Streams.{by_reads};
ghost use Rattle.leak_find.specs.Tasks.{TakesInputs};
ghost use Rattle.leak_find.specs.declared.task.Task.TheVariants.{Holders as Asks};

use crate::answer::{Answer, Context, at_why, without_leaks};
use crate::fault::RunFault;
use crate::passing::read_passed;
use crate::reading::read_reader;
use crate::rules::rules_of;
use leak_holder_search::{Holding, Progress};
use leak_holders::{Question, Workers};
use leak_passing::{Passed, find_passed_held, find_passed_holders};
use leak_request::Options;
use leak_search::{FindError, WhyError};
use leak_streams::ReadCalls;
use std::alloc::Global;
use std::thread::Threads;

/// Reads the earlier log, of the third reader, if there is one.
fn read_earlier<R: ReadCalls>(
    alloc: Global,
    readers: &mut [R],
    sizes: &[u64],
    limit: u64,
) -> Result<Option<Vec<u8>>, RunFault>
    ensures ok { IfOk result (λ log. MatchOption log
        ((length readers.old ≤ 2) × (readers.new ≡ readers.old))
        (λ v. (3 ≤ length readers.old)
        × IsReadAt (by_reads R.calls) 2 limit readers.old readers.new v.items)) }
    ensures refused { IfErr result (λ e. (3 ≤ length readers.old)
        × IsReaderFault (by_reads R.calls) 2 limit readers.old readers.new e) }
{
    if readers.len() <= 2 {
        return Ok(None);
    }
    let log = read_reader(alloc, readers, sizes, 2, limit)?;
    Ok(Some(log))
}

/// The bytes of a log, if there is one.
fn bytes(log: &Option<Vec<u8>>) -> Option<&[u8]>
    ensures { option_map (λ s. s.now) result ≡ option_map (λ v. v.items) log.now }
{
    match log {
        Some(log) => Some(log.as_slice()),
        None => None,
    }
}

/// Finds who holds the memory, or the answer to the question. `since` is the earlier log, if there is one.
fn held<T: Threads + Sync, P: Progress>(
    context: &Context<'_, T, P>,
    options: &Options,
    question: Option<Question>,
    passed: Passed,
    since: Option<&[u8]>,
) -> Result<Holding, WhyError>
    requires { (core : List ℕ) × (log : List ℕ) × IsPassed core log options.now.skip passed }
    ensures ok { IfOk result (λ held. OfPassed options.now.skip passed (λ core log.
        Holds question options.now core log (earlier since.entry) held)) }
    ensures signs { IfOk result (λ held. OfPassed options.now.skip passed (λ core log.
        AreSigns options.now.other_heap (core ∷ log ∷ []) held.signs.items)) }
    ensures refused { IfErr result (λ e. e ≢ Refused NoMemory
        → OfPassed options.now.skip passed (λ core log.
        IsNotHeld question core log (earlier since.entry) e)) }
{
    let workers = Workers::new(context.rt, options.plan.workers(), context.progress);
    let (alloc, rules) = (context.alloc, rules_of(options));
    match question {
        Some(question) => find_passed_held(&workers, alloc, passed, since, question, rules),
        None => match find_passed_holders(&workers, alloc, passed, since, rules) {
            Ok(holding) => Ok(holding),
            Err(error) => Err(WhyError::Find(error)),
        },
    }
}

/// Reads a core and its log in one pass, and then an earlier log, if there is one, and tells who holds the memory, or
/// the answer to the question.
pub(crate) fn holding<T: Threads + Sync, P: Progress, R: ReadCalls>(
    context: &Context<'_, T, P>,
    readers: &mut [R],
    sizes: &[u64],
    options: &Options,
    question: Option<Question>,
) -> Result<Answer, RunFault>
    requires { TakesInputs (Asks options.now question) (length readers.old) }
    ensures ok { IfOk result
        (HasAnswered (by_reads R.calls) (Asks options.now question) readers.old readers.new) }
    ensures refused { IfErr result
        (IsUnanswered (by_reads R.calls) (Asks options.now question) readers.old readers.new) }
{
    let passed = read_passed(context, readers, sizes, options)?;
    let earlier = read_earlier(context.alloc, readers, sizes, options.log_limit)?;
    let Some(passed) = passed else {
        return Err(RunFault::Find(FindError::NoMemory));
    };
    match held(context, options, question, passed, bytes(&earlier)) {
        Ok(held) => Ok(without_leaks(held.report, held.signs)),
        Err(error) => Err(at_why(error)),
    }
}
