//! The search of a sample from memory.

ghost use Rattle.std.specs.Prelude.{◌≡◌, IfOk, IfErr};
ghost use Rattle.leak_find.specs.Streams.{by_writes};
ghost use Rattle.leak_program.specs.Sample.{IsSampleFailure, SearchesSample};

use crate::failure::Failure;
use leak_elf::core_k;
use leak_find::{
    CORE_LIMIT, Context, LOG_LIMIT, Options, Plan, Reading, Skip, Task, WriteCalls, run_sized,
};
use std::thread::Threads;

/// One allocation of 32 bytes.
const LOG: &str = "@ ./a.out:[0x401136] + 0x10100 0x20\n";

/// Searches a core in which one word leads to one allocated block: nothing leaked. The core has no heap of glibc's.
pub fn search_sample<R: AllocGlobal + Threads + Sync, W: WriteCalls, V: WriteCalls>(
    rt: &R,
    writer: &mut W,
    warner: &mut V,
) -> Result<u8, Failure>
    ensures ok { IfOk result (SearchesSample (by_writes W.calls) (by_writes V.calls)
        writer.old writer.new warner.old warner.new) }
    ensures refused { IfErr result (IsSampleFailure (by_writes W.calls) writer.old writer.new) }
    ensures silent { IfErr result (λ _. warner.new ≡ warner.old) }
{
    let alloc = rt.alloc();
    let core = core_k(alloc, [(0x10008, 0x10100)].as_slice())?;
    let mut readers = [core.as_slice(), LOG.as_bytes()];
    let options = Options {
        two: false,
        reading: Reading::interior(),
        skip: Skip::usual(),
        plan: Plan::new(4, 512, 1024).unwrap(),
        other_heap: true,
        check: false,
        strict: false,
        core_limit: CORE_LIMIT,
        log_limit: LOG_LIMIT,
    };
    let (context, task) = (Context::silent(rt, alloc), Task::Search(options));
    match run_sized(&context, &mut readers, &[], &task, writer, warner) {
        Ok(status) => Ok(status),
        Err(fault) => Err(Failure::Run(fault)),
    }
}
