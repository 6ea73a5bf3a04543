//! A whole run: the inputs are read, the task is done, and its answer is written.

ghost use Rattle.std.specs.Prelude.{◌≡◌, ◌≤◌, length, map, IfOk, IfErr, OnOk};
ghost use Rattle.leak_streams.specs.Writes.{IsCutOff, IsWrittenWhole};
ghost use Rattle.leak_find.specs.Streams.{IsTried, by_bytes_held, by_bytes_left, by_reads, by_writes};
ghost use Rattle.leak_find.specs.Run.{HasAnswered, IsRunFault, IsUnanswered, Runs, status_by};
ghost use Rattle.leak_find.specs.Tasks.{TakesInputs};

use crate::answer::{Answer, Context, chain, growth, report};
use crate::fault::RunFault;
use crate::holding::holding;
use crate::passing::search_passing;
use crate::reading::read_inputs;
use crate::task::{Task, is_strict};
use leak_holder_search::Progress;
use leak_report::warnings;
use leak_search::FindError;
use leak_streams::{ReadCalls, WriteCalls, WriteFault, write};
use std::io::{Read, Write};
use std::thread::Threads;

/// Reads the inputs, and answers the task for them.
fn answer<T: Threads + Sync, P: Progress, R: ReadCalls>(
    context: &Context<'_, T, P>,
    readers: &mut [R],
    sizes: &[u64],
    task: &Task,
) -> Result<Answer, RunFault>
    requires { TakesInputs task.now (length readers.old) }
    ensures ok { IfOk result
        (HasAnswered (by_reads R.calls) task.now readers.old readers.new) }
    ensures refused { IfErr result
        (IsUnanswered (by_reads R.calls) task.now readers.old readers.new) }
{
    match task {
        Task::Search(options) if options.two => {
            let inputs = read_inputs(context.alloc, readers, sizes, task)?;
            report(context, options, inputs.as_slice())
        }
        Task::Search(options) => search_passing(context, readers, sizes, options),
        Task::Why(options, address) => {
            let inputs = read_inputs(context.alloc, readers, sizes, task)?;
            chain(context.alloc, options, *address, inputs.as_slice())
        }
        Task::Holders(options, question) => holding(context, readers, sizes, options, *question),
        Task::Grow(_) => {
            let inputs = read_inputs(context.alloc, readers, sizes, task)?;
            growth(context.alloc, inputs.as_slice())
        }
    }
}

/// The exit status of a run that has its answer.
fn status_of(strict: bool, leaked: u64, warnings: &str) -> u8
    ensures { result ≡ status_by strict leaked warnings.now }
{
    if strict && !warnings.is_empty() {
        3
    } else if leaked > 0 {
        1
    } else {
        0
    }
}

/// Writes an answer, and then its warnings: the answer stays, whatever becomes of these.
fn write_both<W: WriteCalls, V: WriteCalls>(
    text: &[u8],
    warnings: &str,
    writer: &mut W,
    warner: &mut V,
) -> Result<(), WriteFault>
    ensures ok { OnOk result (IsWrittenWhole W.calls text.now writer.old writer.new) }
    ensures warned { OnOk result (IsTried (by_writes V.calls) warnings.now warner.old warner.new) }
    ensures cut_off { IfErr result (IsCutOff W.calls text.now writer.old writer.new) }
    ensures silent { IfErr result (λ _. warner.new ≡ warner.old) }
{
    write(text, writer)?;
    let _taken = write(warnings.as_bytes(), warner);
    Ok(())
}

/// Reads the inputs of the task, in its order, does it, writes the answer to the first writer and then the warnings to the
/// second: 0 if nothing leaked, and 1 otherwise; if a warning has a status of its own and there is one, 3. Who holds the
/// memory and what grew tell of no leak.
///
/// The inputs are read in order, each to its end; of one core that is searched, or asked who holds the memory, and its
/// log the reads take turns (`leak_passing`). Answer and warnings are made before anything is written. After a refusal
/// the readers are where the reads left them, and the second writer was not written to. If the second writer fails, it
/// has a first part of the warnings, and the status is the same. It is for libraries and tests: the program goes by
/// [`run_sized`], which this calls without sizes.
pub fn run<T: Threads + Sync, P: Progress, R: Read, W: Write, V: Write>(
    context: &Context<'_, T, P>,
    readers: &mut [R],
    task: &Task,
    writer: &mut W,
    warner: &mut V,
) -> Result<u8, RunFault>
    requires { TakesInputs task.now (length readers.old) }
    ensures ok { IfOk result (Runs by_bytes_left by_bytes_held by_bytes_held task.now
        (map R.remaining readers.old) (map R.remaining readers.new)
        (W.contents writer.old) (W.contents writer.new)
        (V.contents warner.old) (V.contents warner.new)) }
    ensures refused { IfErr result (IsRunFault by_bytes_left by_bytes_held task.now
        (map R.remaining readers.old) (map R.remaining readers.new)
        (W.contents writer.old) (W.contents writer.new)) }
    ensures silent { IfErr result (λ _. warner.new ≡ warner.old) }
{
    run_sized(context, readers, &[], task, writer, warner)
}

/// Runs as [`run`] does, with readers that are said to have these sizes, in their order; 0, as a size that is missing,
/// says nothing. A list has the said size from the start, at most its limit, if that memory can be had, but for a core of
/// which it is not known yet whether it is held. Nothing else depends on a size.
///
/// What it promises of readers and writers it promises by each of their calls. [`runs_tell`](crate::runs_tell) is the law
/// that says what these come to if readers and writers tell their bytes.
pub fn run_sized<T: Threads + Sync, P: Progress, R: ReadCalls, W: WriteCalls, V: WriteCalls>(
    context: &Context<'_, T, P>,
    readers: &mut [R],
    sizes: &[u64],
    task: &Task,
    writer: &mut W,
    warner: &mut V,
) -> Result<u8, RunFault>
    requires { TakesInputs task.now (length readers.old) }
    ensures ok { IfOk result (Runs (by_reads R.calls) (by_writes W.calls) (by_writes V.calls)
        task.now readers.old readers.new writer.old writer.new warner.old warner.new) }
    ensures refused { IfErr result (IsRunFault (by_reads R.calls) (by_writes W.calls)
        task.now readers.old readers.new writer.old writer.new) }
    ensures silent { IfErr result (λ _. warner.new ≡ warner.old) }
{
    let answer = answer(context, readers, sizes, task)?;
    let Ok(warnings) = warnings(context.alloc, answer.signs.as_slice()) else {
        return Err(RunFault::Find(FindError::NoMemory));
    };
    if let Err(fault) = write_both(&answer.text, warnings.as_str(), writer, warner) {
        return Err(RunFault::Write(fault));
    }
    Ok(status_of(is_strict(task), answer.leaked, warnings.as_str()))
}
