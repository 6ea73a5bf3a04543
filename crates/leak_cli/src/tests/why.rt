//! Names of registers in a chain that holds a block.
ghost use Rattle.std.specs.Prelude.{IsTrue};
ghost use Rattle.leak_report.specs.Totals.{HaveCallersIn};

use crate::tests::comparisons::same_in;
use leak_blocks::{Block, replay};
use leak_mtrace::Log;
use leak_notes::RegisterSet;
use leak_why::{Chain, RootPlace, RootWord, text};
use std::alloc::Global;
use std::process::Abort;
use std::test::Fail;

/// Whether the callers of the blocks are ranges of the log.
fn have_callers_in(blocks: &[Block], log: &[u8]) -> bool
    ensures { IsTrue result → HaveCallersIn log.now blocks.now }
{
    blocks.iter().all(|block| block.caller.0 <= block.caller.1 && block.caller.1 <= log.len())
}

/// The text of a block of a log with the chain.
fn told(
    rt: &impl Abort,
    alloc: Global,
    log: &str,
    block: usize,
    chain: &Option<Chain>,
    sets: &[RegisterSet],
) -> Result<Vec<u8>, Fail> {
    let live = replay(alloc, &Log::read(alloc, log.as_bytes())?)?;
    assert!(rt; have_callers_in(live.blocks(), log.as_bytes()));
    Ok(text(alloc, &live, block, chain, sets, log.as_bytes())?)
}

#[test]
fn registers_of_two_threads_have_names(rt: HostRuntime) -> Result<(), Fail> {
    let sets = [
        RegisterSet::Status,
        RegisterSet::Vector,
        RegisterSet::State(3),
        RegisterSet::Status,
    ];
    let cases = [
        (RootPlace::Register(42), "st7 high of thread 1"),
        (RootPlace::Register(43), "xmm0 low of thread 1"),
        (RootPlace::Register(77), "state 592 of thread 1"),
        (RootPlace::Register(97), "rsp of thread 2"),
        (RootPlace::Register(105), "? of thread 2"),
    ];
    for (place, name) in cases {
        let root = RootWord {
            place,
            word: 0x10120,
        };
        let chain = Some(Chain {
            links: Vec::new(rt.alloc()),
            root,
        });
        let shown = told(&rt, rt.alloc(), "+ 0x10100 0x20\n", 0, &chain, &sets)?;
        let line = format!(in rt.alloc();
            "asked 0x10100 32 1 ?\nroot {name} holds 0x10120\nblock 0x10100 32 1 ?\n"
        )?;
        same_in(&rt, &name, shown.as_slice(), line.as_bytes());
    }
    Ok(())
}
