//! What is asked of files.

ghost use Rattle.std.specs.Prelude.{IfOk, IfErr, length, map, string_bytes};
ghost use Rattle.std.specs.Prelude.{◌≡◌};
ghost use Rattle.leak_find.specs.Streams.{by_reads, by_writes};
ghost use Rattle.leak_find.specs.Tasks.{TakesInputs};
ghost use Rattle.leak_program.specs.Files.{AnswersFiles, FailsFiles, IsRefusalOf, OfOpened};

use crate::failure::Failure;
use crate::naming::named;
use crate::opener::Opener;
use crate::opening::{open_all, sizes_of};
use leak_find::{Context, Progress, Task, WriteCalls, run_sized};
use std::thread::Threads;

/// Opens the files with the paths in order, and then reads them and does the task, writes the answer to the first writer and
/// the warnings to the second.
pub fn answer_files<T: Threads + Sync, O: Opener, P: Progress, W: WriteCalls, V: WriteCalls>(
    context: &Context<'_, T, P>,
    opener: &mut O,
    paths: &[String],
    task: &Task,
    writer: &mut W,
    warner: &mut V,
) -> Result<u8, Failure>
    requires { TakesInputs task.now (length paths.now) }
    ensures ok { IfOk result (λ status. OfOpened O.opens (map string_bytes paths.now) opener.old opener.new
        (AnswersFiles (by_reads O.File.calls) (by_writes W.calls) (by_writes V.calls) task.now
        writer.old writer.new warner.old warner.new status)) }
    ensures refused { IfErr result
        (IsRefusalOf O.opens (map string_bytes paths.now) opener.old opener.new
        writer.old writer.new
        (FailsFiles (by_reads O.File.calls) (by_writes W.calls) task.now writer.old writer.new)) }
    ensures silent { IfErr result (λ _. warner.new ≡ warner.old) }
{
    let mut files = open_all(context.alloc, opener, paths)?;
    let sizes = sizes_of::<O>(files.as_slice());
    match run_sized(context, files.as_mut_slice(), &sizes, task, writer, warner) {
        Ok(status) => Ok(status),
        Err(fault) => Err(named(context.alloc, paths, fault)),
    }
}
