//! The answers to tasks that hold their inputs, for inputs that were read.

ghost use Rattle.std.specs.Prelude.{◌≡◌, ◌≢◌, true, IfOk, IfErr, length};
ghost use Rattle.leak_search.specs.declared.error.FindError.TheVariants.{NoMemory};
ghost use Rattle.leak_search.specs.Signs.{AreSigns};
ghost use Rattle.leak_find.specs.Answers.{Finds, IsFaultOf, IsUntold, Tells, TellsGrowth, at_why, leaked_if_not};
ghost use Rattle.leak_request.specs.declared.options.GrowOptions.{GrowOptions};
ghost use Rattle.leak_find.specs.Inputs.{bytes_of, input_at};
ghost use Rattle.leak_find.specs.declared.task.Task.TheVariants.{Grow, Search, Why as AsksWhy};

use crate::fault::RunFault;
use crate::reading::input;
use crate::rules::rules_of;
use leak_growth::find_growth;
use leak_holder_search::{Progress, Silent};
use leak_pool::Open;
use leak_report::Signs;
use leak_request::Options;
use leak_search::{FindError, Found, WhyError, Workers, find_two, find_why};
use std::alloc::Global;
use std::thread::Threads;

/// What a run goes by: threads, memory, and who is told how far it has come.
#[derive(Drop)]
pub struct Context<'a, T: Threads + Sync, P: Progress> {
    pub rt: &'a T,
    pub alloc: Global,
    /// It is told how far a question who holds the memory has come. That changes nothing else.
    pub progress: &'a P,
}

impl<'a, T: Threads + Sync> Context<'a, T, Silent> {
    /// The context of a run that tells nobody how far it has come.
    pub fn silent(rt: &'a T, alloc: Global) -> Context<'a, T, Silent> {
        Context {
            rt,
            alloc,
            progress: &Silent,
        }
    }
}

/// The answer to a task.
#[derive(Drop)]
pub(crate) struct Answer {
    /// The lines, each with its line feed.
    pub text: Vec<u8>,
    /// How many blocks leaked.
    pub leaked: u64,
    /// What is odd about the inputs.
    pub signs: Vec<Signs>,
}

/// The report of a search of two cores, and how many blocks leaked.
pub(crate) fn report<T: Threads + Sync, P: Progress>(
    context: &Context<'_, T, P>,
    options: &Options,
    inputs: &[Vec<u8>],
) -> Result<Answer, RunFault>
    requires count { length inputs.now ≡ 4 }
    requires two { options.now.two ≡ true }
    ensures ok { IfOk result (Tells (Search options.now) (bytes_of inputs.now)) }
    ensures refused { IfErr result (IsUntold (Search options.now) (bytes_of inputs.now)) }
{
    match search(context, options, inputs) {
        Ok(found) => Ok(answer_of(found)),
        Err(error) => Err(RunFault::Find(error)),
    }
}

/// What a search found, as an answer.
pub(crate) fn answer_of(found: Found) -> Answer
    ensures { result ≡ record { text = found.report; leaked = found.leaked; signs = found.signs } }
{
    Answer {
        text: found.report,
        leaked: found.leaked,
        signs: found.signs,
    }
}

/// Searches two cores.
fn search<T: Threads + Sync, P: Progress>(
    context: &Context<'_, T, P>,
    options: &Options,
    inputs: &[Vec<u8>],
) -> Result<Found, FindError>
    requires { length inputs.now ≡ 4 }
    ensures ok { IfOk result (Finds true options.now (bytes_of inputs.now)) }
    ensures signs { IfOk result (λ found.
        AreSigns options.now.other_heap (bytes_of inputs.now) found.signs.items) }
    ensures refused { IfErr result (λ e. e ≢ NoMemory
        → IsFaultOf true (bytes_of inputs.now) e) }
{
    let workers = Workers {
        rt: context.rt,
        plan: options.plan,
        gate: &Open,
    };
    let (alloc, rules, check) = (context.alloc, rules_of(options), options.check);
    let (core1, log1) = (input(inputs, 0), input(inputs, 1));
    let (core2, log2) = (input(inputs, 2), input(inputs, 3));
    find_two(&workers, alloc, core1, log1, core2, log2, rules, check)
}

/// What holds the block of the address.
pub(crate) fn chain(
    alloc: Global,
    options: &Options,
    address: u64,
    inputs: &[Vec<u8>],
) -> Result<Answer, RunFault>
    ensures ok { IfOk result (Tells (AsksWhy options.now address) (bytes_of inputs.now)) }
    ensures refused { IfErr result (IsUntold (AsksWhy options.now address) (bytes_of inputs.now)) }
{
    let (core, log) = (input(inputs, 0), input(inputs, 1));
    match find_why(alloc, core, log, rules_of(options), address) {
        Ok(why) => Ok(Answer {
            text: why.text,
            leaked: leaked_if_not(why.held),
            signs: why.signs,
        }),
        Err(error) => Err(at_why(error)),
    }
}

/// How many blocks leaked: the one that was asked for, if nothing holds it.
fn leaked_if_not(held: bool) -> u64
    ensures { result ≡ leaked_if_not held }
{
    if held { 0 } else { 1 }
}

/// The refusal of a run whose inputs were read.
pub(crate) fn at_why(error: WhyError) -> RunFault
    ensures { result ≡ at_why error }
{
    match error {
        WhyError::Find(error) => RunFault::Find(error),
        WhyError::NoBlock(address) => RunFault::NoBlock(address),
    }
}

/// The answer that tells of no leak.
pub(crate) fn without_leaks(text: Vec<u8>, signs: Vec<Signs>) -> Answer
    ensures { result ≡ record { text = text; leaked = 0; signs = signs } }
{
    Answer {
        text,
        leaked: 0,
        signs,
    }
}

/// What grew between two logs.
pub(crate) fn growth(alloc: Global, inputs: &[Vec<u8>]) -> Result<Answer, RunFault>
    ensures ok { IfOk result
        (TellsGrowth (input_at (bytes_of inputs.now) 0) (input_at (bytes_of inputs.now) 1)) }
    ensures refused { IfErr result (λ e. (o : GrowOptions) → IsUntold (Grow o) (bytes_of inputs.now) e) }
{
    match find_growth(alloc, input(inputs, 0), input(inputs, 1)) {
        Ok(grown) => Ok(without_leaks(grown.report, grown.signs)),
        Err(error) => Err(RunFault::Find(error)),
    }
}
