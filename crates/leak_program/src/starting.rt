//! The start of the program, and its exit status.

ghost use Rattle.std.specs.Prelude.{◌≡◌, IfErr, IfOk, MatchResult, map, string_bytes};
ghost use Rattle.std.specs.IoError.{error_kind};
ghost use Rattle.std.specs.Process.{exit_status};
ghost use Rattle.std.specs.Vec.Iter.{into_iter_items};
ghost use Rattle.leak_find.specs.Streams.{IsTried, by_reads, by_writes};
ghost use Rattle.leak_program.specs.declared.failure.Failure.TheVariants.{NoMemory};
ghost use Rattle.leak_program.specs.Start.{HasStarted, IsAnswered, IsTold, IsUnread, unread_as};

use crate::answering::answer;
use crate::failure::Failure;
use crate::messages::message;
use crate::opener::Opener;
use leak_find::{Progress, WriteCalls, write};
use std::alloc::Global;
use std::env::Args;
use std::process::ExitCode;
use std::rt::Env;
use std::thread::Threads;
use std::{env, io};

/// The status of a refusal.
const REFUSED: u8 = 2;

/// What is said if no memory is left to say why there is no report.
const NO_MEMORY: &[u8; 25] = b"leak_find: out of memory\n";

/// Does what the words of the program's command line ask for, over files that the opener gives: the report goes to the first writer,
/// which is that of standard output, and the warnings, or why there is no report, to the second, which is that of standard error. The
/// progress is told how far a run has come that may take long.
pub fn start<
    R: Env + AllocGlobal + Threads + Sync,
    O: Opener,
    P: Progress,
    W: WriteCalls,
    V: WriteCalls,
>(rt: &R, opener: &mut O, progress: &P, writer: &mut W, warner: &mut V) -> ExitCode
    ensures { HasStarted O.opens (by_reads O.File.calls) (by_writes W.calls) (by_writes V.calls) opener.old opener.new
        writer.old writer.new warner.old warner.new (exit_status result) }
{
    match words_of(rt.alloc(), env::args(rt)) {
        Ok(words) => ExitCode::from(answer_all(
            rt,
            opener,
            words.as_slice(),
            progress,
            writer,
            warner,
        )),
        Err(failure) => ExitCode::from(refuse(rt.alloc(), &failure, warner)),
    }
}

/// Answers the words, and says on the second writer why there is no answer, if there is none. Gives the exit status.
pub fn answer_all<
    R: AllocGlobal + Threads + Sync,
    O: Opener,
    P: Progress,
    W: WriteCalls,
    V: WriteCalls,
>(rt: &R, opener: &mut O, words: &[String], progress: &P, writer: &mut W, warner: &mut V) -> u8
    ensures { IsAnswered O.opens (by_reads O.File.calls) (by_writes W.calls) (by_writes V.calls) (map string_bytes words.now)
        opener.old opener.new writer.old writer.new warner.old warner.new result }
{
    match answer(rt, opener, words, progress, writer, warner) {
        Ok(status) => status,
        Err(failure) => refuse(rt.alloc(), &failure, warner),
    }
}

/// The words of the program's command line: the arguments that were given, all of them in order.
fn words_of(alloc: Global, given: io::Result<Args>) -> Result<Vec<String>, Failure>
    ensures ok { IfOk result (λ words. MatchResult given (λ args. words.items ≡ into_iter_items args) (λ _. ⊥)) }
    ensures refused { IfErr result (λ failure.
        MatchResult given (λ _. failure ≡ NoMemory) (λ error. failure ≡ unread_as (error_kind error))) }
    ensures either { IfErr result IsUnread }
{
    match given {
        Ok(args) => Ok(args.collect(alloc)?),
        Err(error) => Err(unread(&error)),
    }
}

/// Why the words of the command line can't be had.
fn unread(error: &io::Error) -> Failure
    ensures reason { result ≡ unread_as (error_kind error.now) }
    ensures either { IsUnread result }
{
    match error.kind() {
        io::ErrorKind::OutOfMemory => Failure::NoMemory,
        _ => Failure::BadArgument,
    }
}

/// Says why there is no report, and gives the status of a refusal.
fn refuse<V: WriteCalls>(alloc: Global, failure: &Failure, warner: &mut V) -> u8
    ensures told { IsTold (by_writes V.calls) failure.now warner.old warner.new }
    ensures status { result ≡ 2 }
{
    tell(alloc, failure, warner);
    REFUSED
}

/// Says why there is no report.
fn tell<V: WriteCalls>(alloc: Global, failure: &Failure, warner: &mut V)
    ensures { IsTold (by_writes V.calls) failure.now warner.old warner.new }
{
    match message(alloc, failure) {
        Ok(text) => say(&text, warner),
        Err(_) => say(NO_MEMORY, warner),
    }
}

/// Hands the text to the writer. If the write is refused there is nowhere to say so.
fn say<V: WriteCalls>(text: &[u8], warner: &mut V)
    ensures { IsTried (by_writes V.calls) text.now warner.old warner.new }
{
    let _taken = write(text, warner);
}
