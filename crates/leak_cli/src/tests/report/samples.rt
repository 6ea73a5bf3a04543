//! Reports of logs whose blocks are marked.

ghost use Rattle.std.specs.Prelude.{length, IsTrue};
ghost use Rattle.leak_report.specs.Totals.{HaveCallersIn};

use leak_blocks::{Block, replay};
use leak_mtrace::Log;
use leak_report::{CallerTexts, Head, text};
use std::alloc::Global;
use std::process::Abort;
use std::test::Fail;

/// Whether the callers of the blocks are ranges of the log.
pub(crate) fn have_callers_in(blocks: &[Block], log: &[u8]) -> bool
    ensures { IsTrue result → HaveCallersIn log.now blocks.now }
{
    blocks.iter().all(|block| block.caller.0 <= block.caller.1 && block.caller.1 <= log.len())
}

pub(crate) const NOTHING_ODD: Head = Head {
    undumped: 0,
    unknown: 0,
    displaced: 0,
    torn: 0,
    freed: None,
    dead: None,
    two: None,
};

/// The report of a log whose marked blocks are these, and whose heads are those.
pub(crate) fn report(
    rt: &impl Abort,
    alloc: Global,
    head: &Head,
    log: &str,
    marked: &[bool],
    heads: &[bool],
) -> Result<Vec<u8>, Fail> {
    let lines = Log::read(alloc, log.as_bytes())?;
    let live = replay(alloc, &lines)?;
    assert!(rt; live.blocks().len() == marked.len());
    assert!(rt; live.blocks().len() == heads.len());
    assert!(rt; have_callers_in(live.blocks(), log.as_bytes()));
    let log = log.as_bytes();
    let callers = CallerTexts::OfLog(log);
    Ok(text(alloc, head, &live, marked, heads, None, callers)?)
}
