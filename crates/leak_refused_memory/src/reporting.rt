//! The calls that make the report.

ghost use Rattle.std.specs.Prelude.{IsTrue};
ghost use Rattle.leak_report.specs.Totals.{HaveCallersIn};

use crate::answer::Answer;
use crate::samples::{FOUR_CALLERS, live_of};
use leak_blocks::Block;
use leak_report::{CallerTexts, Head, Totals, text};
use std::alloc::Global;

/// The report of four lost blocks, of which one has no chunk in its core.
const REPORT: &str = "blocks 4 bytes 112\n\
                      undumped 0\n\
                      unknown 0 displaced 0 torn 0\n\
                      marked 0 bytes 0\n\
                      leaked 4 bytes 112\n\
                      heads 4\n\
                      misfits 1\n\
                      caller 1 40 1 b:[0x2]\n\
                      caller 2 40 2 c:[0x3]\n\
                      caller 1 32 1 a:[0x1]\n\
                      leak 0x10100 32 1 head a:[0x1]\n\
                      leak 0x10200 16 2 head c:[0x3]\n\
                      leak 0x10300 24 3 head c:[0x3]\n\
                      leak 0x10400 40 4 head b:[0x2]\n\
                      misfit 0x10200 16 2 c:[0x3]\n";

/// Whether the callers of the blocks are ranges of the log.
fn have_callers_in(blocks: &[Block], log: &[u8]) -> bool
    ensures { IsTrue result → HaveCallersIn log.now blocks.now }
{
    blocks.iter().all(|block| block.caller.0 <= block.caller.1 && block.caller.1 <= log.len())
}

/// `Totals::of` four lost blocks.
pub(crate) fn totals(alloc: Global) -> Option<Answer> {
    let live = live_of(alloc, FOUR_CALLERS)?;
    let set = [false; 4];
    let heads = [true; 4];
    if live.blocks().len() != 4 || !have_callers_in(live.blocks(), FOUR_CALLERS.as_bytes()) {
        return Some(Answer::Other);
    }
    match Totals::of(alloc, &live, &set, &heads, FOUR_CALLERS.as_bytes()) {
        Ok(totals) => Some(Answer::of(
            totals.blocks == 4
                && totals.bytes == 112
                && totals.heads == 4
                && totals.rows.len() == 3,
        )),
        Err(_) => Some(Answer::Wanting),
    }
}

/// `text` of four lost blocks.
pub(crate) fn report(alloc: Global) -> Option<Answer> {
    let live = live_of(alloc, FOUR_CALLERS)?;
    let set = [false; 4];
    let heads = [true; 4];
    let fits = [true, false, true, true];
    if live.blocks().len() != 4 || !have_callers_in(live.blocks(), FOUR_CALLERS.as_bytes()) {
        return Some(Answer::Other);
    }
    let head = Head {
        undumped: 0,
        unknown: 0,
        displaced: 0,
        torn: 0,
        freed: None,
        dead: None,
        two: None,
    };
    match text(
        alloc,
        &head,
        &live,
        &set,
        &heads,
        Some(&fits),
        CallerTexts::OfLog(FOUR_CALLERS.as_bytes()),
    ) {
        Ok(text) => Some(Answer::of(text.as_slice() == REPORT.as_bytes())),
        Err(_) => Some(Answer::Wanting),
    }
}
