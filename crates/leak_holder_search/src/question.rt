//! What one caller or one block holds, and who holds it.

ghost use Rattle.std.specs.Prelude.{◌≡◌, ◌≢◌, ◌<◌, [], ◌∷◌, length, IfOk, IfErr};
ghost use Rattle.leak_index.specs.Readings.{distances_of};
ghost use Rattle.leak_search.specs.declared.error.FindError.TheVariants.{NoMemory};
ghost use Rattle.leak_search.specs.Inputs.{IsRead};
ghost use Rattle.leak_search.specs.Signs.{AreSigns};
ghost use Rattle.leak_search.specs.declared.why.WhyError.TheVariants.{Find, NoBlock};
ghost use Rattle.leak_why.specs.Asked.{AreNotAsked};
ghost use Rattle.leak_holder_search.specs.Held.{FindsHeld, IsHeldFault};
ghost use Rattle.leak_holder_search.specs.Listed.{IsListed, OfListed};
ghost use Rattle.leak_holder_search.specs.Since.{earlier};

use crate::analysis::analysis_of;
use crate::choosing::choice_of;
use crate::files::Files;
use crate::held::held_of;
use crate::held_report::held_text_of;
use crate::listing::{ListedCore, list_for_holders};
use crate::logs::Logs;
use crate::search::Holding;
use leak_blocks::Live;
use leak_holders::{Progress, Question, Workers};
use leak_pool::Plan;
use leak_search::{Input, Rules, WhyError, read_input};
use leak_why::block_at;
use std::alloc::Global;
use std::thread::Threads;

/// Searches a core and its log by the rules, and answers a question about the live block of an address, or about all blocks of its text.
///
/// What these hold are the blocks that no chain of words reaches without passing one of them, by the texts of their callers. Who holds them
/// are the other texts without whose blocks no chain reaches one of them. The answer doesn't depend on the plan, on the progress, or on how
/// the workers meet.
///
/// # Errors
///
/// As [`find_holders`](crate::find_holders), and then `NoBlock` if no live block has a byte at the address, or begins there.
pub fn find_held<R: Threads + Sync, P: Progress>(
    rt: &R,
    alloc: Global,
    files: &Files,
    question: Question,
    rules: Rules,
    plan: Plan,
    progress: &P,
) -> Result<Holding, WhyError>
    ensures ok { IfOk result (FindsHeld files.now.core.now files.now.log.now
        (earlier files.now.since) (distances_of rules.reading) rules.skip question) }
    ensures signs { IfOk result (λ found. AreSigns rules.other_heap
        (files.now.core.now ∷ files.now.log.now ∷ []) found.signs.items) }
    ensures refused { IfErr result (λ e. e ≢ Find NoMemory → IsHeldFault files.now.core.now
        files.now.log.now (earlier files.now.since) question.address e) }
{
    let input = read_input(alloc, 1, rules.skip, files.core, files.log)?;
    let workers = Workers::new(rt, plan.workers(), progress);
    let logs = Logs {
        log: files.log,
        since: files.since,
    };
    find_held_in(&workers, alloc, &input, &logs, question, rules)
}

/// Searches an input by the rules, which left out of it what they leave out, and answers a question about the live
/// block of an address, or about all blocks of its text. The log is that of which the input was read.
///
/// It gives what [`find_held`] gives for the core and the logs.
///
/// # Errors
///
/// As [`find_holders_in`](crate::find_holders_in), and then `NoBlock` if no live block has a byte at the address, or
/// begins there.
pub fn find_held_in<R: Threads + Sync, P: Progress>(
    workers: &Workers<'_, R, P>,
    alloc: Global,
    input: &Input,
    logs: &Logs,
    question: Question,
    rules: Rules,
) -> Result<Holding, WhyError>
    requires read { IsRead input.now.image logs.now.log.now input.now }
    requires skip { input.now.skip ≡ rules.skip }
    requires some { 0 < workers.now.count }
    ensures ok { IfOk result (FindsHeld input.now.image logs.now.log.now
        (earlier logs.now.since) (distances_of rules.reading) rules.skip question) }
    ensures signs { IfOk result (λ found. AreSigns rules.other_heap
        (input.now.image ∷ logs.now.log.now ∷ []) found.signs.items) }
    ensures refused { IfErr result (λ e. e ≢ Find NoMemory → IsHeldFault input.now.image
        logs.now.log.now (earlier logs.now.since) question.address e) }
{
    let core = list_for_holders(workers, alloc, input, logs, rules)?;
    find_listed_held(workers, alloc, &input.live, core, logs, question)
}

/// Answers a question about the live block of an address, or about all blocks of its text, of an input of whose core
/// [`list_for_holders`] gave what is needed. The logs are those of the input.
///
/// It gives what [`find_held`] gives for the core and the logs.
///
/// # Errors
///
/// `NoBlock` if no live block has a byte at the address, or begins there, and `NoMemory` at any time.
pub fn find_listed_held<R: Threads + Sync, P: Progress>(
    workers: &Workers<'_, R, P>,
    alloc: Global,
    live: &Live,
    core: ListedCore,
    logs: &Logs,
    question: Question,
) -> Result<Holding, WhyError>
    requires { IsListed live.now core.listed logs.now }
    ensures ok { IfOk result (λ found. OfListed live.now core.listed logs.now (λ input reading.
        FindsHeld input.image logs.now.log.now (earlier logs.now.since) reading input.skip question
        found)) }
    ensures signs { IfOk result (λ found. found.signs.items ≡ core.signs.items) }
    ensures refused { IfErr result (λ e. e ≢ Find NoMemory → (e ≡ NoBlock question.address)
        × AreNotAsked live.now.blocks question.address (length live.now.blocks)) }
{
    let ListedCore { listed, signs } = core;
    let Some(block) = block_at(live, question.address) else {
        return Err(WhyError::NoBlock(question.address));
    };
    let analysis = analysis_of(alloc, live, listed, logs)?;
    let choice = choice_of(alloc, &analysis, question, block)?;
    let held = held_of(workers, alloc, &analysis, &choice)?;
    let report = held_text_of(alloc, &analysis, &choice, &held)?;
    Ok(Holding { report, signs })
}
