//! A core that is passed: of its bytes only what a search needs is kept.

ghost use Rattle.std.specs.Prelude.{◌≡◌, ◌≤◌, false, length, IfOk, IfErr, IfSome};
ghost use Rattle.leak_passing.specs.Passed.{IsPassed, IsPassedByTexts, Passes};
ghost use Rattle.leak_find.specs.Passing.{AreFirstTwo, IsPassRefusal, limits_in};
ghost use Rattle.leak_find.specs.Run.{HasAnswered, IsUnanswered};
ghost use Rattle.leak_find.specs.Streams.{by_reads};
ghost use Rattle.leak_find.specs.Tasks.{limit_beside};
ghost use Rattle.leak_find.specs.declared.task.Task.TheVariants.{Search};

use crate::answer::{Answer, Context, answer_of};
use crate::fault::RunFault;
use crate::rules::rules_of;
use leak_holder_search::Progress;
use leak_passing::{
    Limits, Passed, PassedByTexts, PassingFault, find_passed, read_passing, read_passing_by_texts,
};
use leak_pool::Open;
use leak_request::Options;
use leak_search::{FindError, Workers};
use leak_streams::ReadCalls;
use leak_team::Team;
use std::thread::Threads;

/// How many bytes a core and its log may have by the options. The sizes are those that the readers are said to have;
/// one that is missing counts as 0.
fn limits(options: &Options, sizes: &[u64]) -> Limits
    ensures core { result.core ≡ options.now.core_limit }
    ensures log { result.log ≡ options.now.log_limit }
{
    Limits {
        core: options.core_limit,
        log: options.log_limit,
        core_size: sizes.first().copied().unwrap_or(0),
        log_size: sizes.get(1).copied().unwrap_or(0),
    }
}

/// The workers that read a core and its log.
fn team<'a, T: Threads + Sync, P: Progress>(
    context: &Context<'a, T, P>,
    options: &Options,
) -> Team<'a, T>
    ensures { result.workers ≡ options.now.plan.workers }
{
    Team {
        rt: context.rt,
        alloc: context.alloc,
        workers: options.plan.workers(),
    }
}

/// Reads a core and its log in one pass, of the first two readers. The sizes are those that the readers are said to
/// have. If both were read to their ends, and there was no memory for what is kept, it is `None`.
pub(crate) fn read_passed<T: Threads + Sync, P: Progress, R: ReadCalls>(
    context: &Context<'_, T, P>,
    readers: &mut [R],
    sizes: &[u64],
    options: &Options,
) -> Result<Option<Passed>, RunFault>
    requires { 2 ≤ length readers.old }
    ensures ok { IfOk result (λ passed. AreFirstTwo readers.old readers.new
        (Passes R.calls (limits_in options.now)
        (λ core log. IfSome passed (IsPassed core log options.now.skip)))) }
    ensures refused { IfErr result (IsPassRefusal (by_reads R.calls)
        (limit_beside options.now) readers.old readers.new) }
    ensures count { length readers.new ≡ length readers.old }
{
    let limits = limits(options, sizes);
    let first = &mut readers[..2];
    match read_passing(&team(context, options), first, limits, options.skip) {
        Ok(passed) => Ok(Some(passed)),
        Err(PassingFault::Core(fault)) => Err(RunFault::Read(1, fault)),
        Err(PassingFault::Log(fault)) => Err(RunFault::Read(2, fault)),
        Err(PassingFault::NoMemory) => Ok(None),
    }
}

/// Reads a core and its log as [`read_passed`] does, and keeps the texts of callers in place of the log.
fn read_passed_by_texts<T: Threads + Sync, P: Progress, R: ReadCalls>(
    context: &Context<'_, T, P>,
    readers: &mut [R],
    sizes: &[u64],
    options: &Options,
) -> Result<Option<PassedByTexts>, RunFault>
    requires { 2 ≤ length readers.old }
    ensures ok { IfOk result (λ passed. AreFirstTwo readers.old readers.new
        (Passes R.calls (limits_in options.now)
        (λ core log. IfSome passed (IsPassedByTexts core log options.now.skip)))) }
    ensures refused { IfErr result (IsPassRefusal (by_reads R.calls)
        (limit_beside options.now) readers.old readers.new) }
    ensures count { length readers.new ≡ length readers.old }
{
    let limits = limits(options, sizes);
    let first = &mut readers[..2];
    match read_passing_by_texts(&team(context, options), first, limits, options.skip) {
        Ok(passed) => Ok(Some(passed)),
        Err(PassingFault::Core(unread)) => Err(RunFault::Read(1, unread)),
        Err(PassingFault::Log(unread)) => Err(RunFault::Read(2, unread)),
        Err(PassingFault::NoMemory) => Ok(None),
    }
}

/// Reads a core and its log in one pass, and searches them.
pub(crate) fn search_passing<T: Threads + Sync, P: Progress, R: ReadCalls>(
    context: &Context<'_, T, P>,
    readers: &mut [R],
    sizes: &[u64],
    options: &Options,
) -> Result<Answer, RunFault>
    requires readers { length readers.old ≡ 2 }
    requires one { options.now.two ≡ false }
    ensures ok { IfOk result
        (HasAnswered (by_reads R.calls) (Search options.now) readers.old readers.new) }
    ensures refused { IfErr result
        (IsUnanswered (by_reads R.calls) (Search options.now) readers.old readers.new) }
{
    let Some(passed) = read_passed_by_texts(context, readers, sizes, options)? else {
        return Err(RunFault::Find(FindError::NoMemory));
    };
    let workers = Workers {
        rt: context.rt,
        plan: options.plan,
        gate: &Open,
    };
    let (rules, check) = (rules_of(options), options.check);
    match find_passed(&workers, context.alloc, passed, rules, check) {
        Ok(found) => Ok(answer_of(found)),
        Err(error) => Err(RunFault::Find(error)),
    }
}
