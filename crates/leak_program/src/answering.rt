//! What the program answers to the words of a command line.

ghost use Rattle.std.specs.Prelude.{◌≡◌, ◌<◌, ◌≤◌, IfOk, IfErr, length, map, string_bytes};
ghost use Rattle.leak_find.specs.Streams.{by_reads, by_writes};
ghost use Rattle.leak_program.specs.Answer.{Answers, IsFailureOf, IsNotShown};
ghost use Rattle.leak_program.specs.Asked.{AsksFor};
ghost use Rattle.leak_program.specs.Sample.{IsSampleFailure, SearchesSample};

use crate::failure::Failure;
use crate::files::answer_files;
use crate::opener::Opener;
use crate::sample::search_sample;
use leak_find::{Context, Progress, Request, RunFault, Task, WriteCalls, request, write};
use std::thread::Threads;

/// Searches what the words ask for, which begin with the program's name, writes the report to the first writer and then
/// the warnings to the second, and gives the status: 0 if nothing leaked, and 1 otherwise; with `--strict`, 3 if
/// there is a warning. If the words ask what holds a block, answer and warnings are written so too, and the status is 0
/// if the block is held, and 1 if it leaked, or 3 by `--strict`. If they ask who holds the memory, or what grew, the
/// answer and the warnings are written so too, and the status is 0, or 3 by `--strict`. If they ask for
/// help, or for the version, the text is written to the first writer, and the status is 0.
///
/// The progress is told how far a question who holds the memory has come, which changes nothing of all this. If no word follows
/// the name, a sample is searched. After a refusal nothing is written, unless it is the writer that failed.
pub fn answer<
    R: AllocGlobal + Threads + Sync,
    O: Opener,
    P: Progress,
    W: WriteCalls,
    V: WriteCalls,
>(
    rt: &R,
    opener: &mut O,
    words: &[String],
    progress: &P,
    writer: &mut W,
    warner: &mut V,
) -> Result<u8, Failure>
    ensures sample { length words.now < 2
        → IfOk result (SearchesSample (by_writes W.calls) (by_writes V.calls)
        writer.old writer.new warner.old warner.new) }
    ensures sample_refused { length words.now < 2
        → IfErr result (IsSampleFailure (by_writes W.calls) writer.old writer.new) }
    ensures no_file { length words.now < 2 → opener.new ≡ opener.old }
    ensures ok { 2 ≤ length words.now → IfOk result
        (Answers O.opens (by_reads O.File.calls) (by_writes W.calls) (by_writes V.calls) (map string_bytes words.now)
        opener.old opener.new writer.old writer.new warner.old warner.new) }
    ensures refused { 2 ≤ length words.now → IfErr result
        (IsFailureOf O.opens (by_reads O.File.calls) (by_writes W.calls) (map string_bytes words.now)
        opener.old opener.new writer.old writer.new) }
    ensures silent { IfErr result (λ _. warner.new ≡ warner.old) }
{
    if words.len() < 2 {
        return search_sample(rt, writer, warner);
    }
    let request = request(rt.alloc(), words)?;
    match asked_of(&request) {
        Asked::Files(paths, task) => {
            let context = context_of(rt, progress);
            answer_files(&context, opener, paths, &task, writer, warner)
        }
        Asked::Text(text) => show(text, writer),
    }
}

/// The context of a run, which takes the memory that the runtime gives.
fn context_of<'a, R: AllocGlobal + Threads + Sync, P: Progress>(
    rt: &'a R,
    progress: &'a P,
) -> Context<'a, R, P> {
    Context {
        rt,
        alloc: rt.alloc(),
        progress,
    }
}

/// What a request comes to.
pub(crate) enum Asked<'a> {
    /// The files with the paths are to be read, for the task.
    Files(&'a [String], Task),
    /// The text is to be shown.
    Text(&'a str),
}

/// What the request asks for.
fn asked_of(request: &Request) -> Asked<'_>
    ensures { AsksFor request.now result }
{
    match request {
        Request::Search(it) => Asked::Files(it.paths.as_slice(), Task::Search(it.options)),
        Request::Why(it) => Asked::Files(it.paths.as_slice(), Task::Why(it.options, it.address)),
        Request::Holders(it) => {
            Asked::Files(it.paths.as_slice(), Task::Holders(it.options, it.question))
        }
        Request::Grow(it) => Asked::Files(it.paths.as_slice(), Task::Grow(it.options)),
        Request::Text(text) => Asked::Text(text.as_str()),
    }
}

/// Writes the text that was asked for.
fn show<W: WriteCalls>(text: &str, writer: &mut W) -> Result<u8, Failure>
    ensures ok { IfOk result (λ status. (status ≡ 0) × (by_writes W.calls).whole text.now writer.old writer.new) }
    ensures refused { IfErr result (IsNotShown (by_writes W.calls) text.now writer.old writer.new) }
{
    match write(text.as_bytes(), writer) {
        Ok(()) => Ok(0),
        Err(fault) => Err(Failure::Run(RunFault::Write(fault))),
    }
}
