//! What a log comes to that was replayed while it was read.

ghost use Rattle.std.specs.Prelude.{◌≢◌, ℕ, Bool, List, ◌++◌, IfOk};
ghost use Rattle.leak_mtrace.specs.declared.line.Line.{Line};
ghost use Rattle.leak_mtrace.specs.Log.{IsFirstFault};
ghost use Rattle.leak_blocks.specs.Numbers.{IsStageAfter};
ghost use Rattle.leak_replaying.specs.Outcome.{IsOfLog, IsReplayedTo};
ghost use Rattle.leak_replaying.specs.Replaying.{HasPassed, IsAtEnd};
ghost use Rattle.leak_replaying.specs.Texts.{AreKeptOf};

use crate::log_so_far::LogSoFar;
use crate::texts::{KeptTexts, chosen_numbers};
use leak_blocks::{Replayed, SmallSpans, Stage};
use leak_mtrace::LogError;
use std::alloc::{AllocError, Global};

/// A log that was replayed while it was read.
#[derive(Drop)]
pub struct LogByTexts {
    /// What was read of the log: its live blocks and the spans whose freed places are left out, or its first fault.
    /// Without memory for the texts it is want of memory.
    pub read: Result<(Replayed, SmallSpans), LogError>,
    /// The texts of the live blocks' callers.
    pub texts: KeptTexts,
}

/// What a log comes to that was replayed to its end, and the texts of its live blocks' callers.
fn finish(
    alloc: Global,
    stage: Stage,
    log: LogSoFar,
) -> Result<((Replayed, SmallSpans), KeptTexts), AllocError>
    requires { (passed : List ℕ) × (lines : List Line)
        × HasPassed log passed lines stage.allocated.items × IsStageAfter lines stage }
    ensures { IfOk result (λ read. (passed : List ℕ) (lines : List Line)
        → HasPassed log passed lines stage.allocated.items → IsStageAfter lines stage → IsAtEnd log
        → IsReplayedTo log.spans (passed ++ log.window.items) read.0
        × AreKeptOf (passed ++ log.window.items) read.0.0.live.blocks read.1) }
{
    let small = if log.spans {
        stage.small_spans(alloc)?
    } else {
        SmallSpans::none(alloc)
    };
    let (bytes, places) = log.texts.finish();
    let (numbers, live) = (log.numbers.as_slice(), stage.numbers());
    let texts = KeptTexts {
        numbers: chosen_numbers(alloc, numbers, live, places.len())?,
        bytes,
        places,
    };
    let replayed = Replayed {
        live: stage.live(alloc)?,
        torn: u64::from(!log.window.is_empty()),
        whole_len: log.at.bytes,
    };
    Ok(((replayed, small), texts))
}

impl LogByTexts {
    /// A log with this fault, or one for which there was no memory.
    pub(crate) fn unread(alloc: Global, error: LogError) -> LogByTexts
        ensures { (spans : Bool) (log : List ℕ) → (error ≢ LogError.NoMemory → IsFirstFault log error)
            → IsOfLog spans log result }
    {
        LogByTexts {
            read: Err(error),
            texts: KeptTexts::none(alloc),
        }
    }
}

/// The same as [`finish`], where want of memory counts as want of memory for the log.
pub(crate) fn finish_or_none(alloc: Global, stage: Stage, log: LogSoFar) -> LogByTexts
    requires { (passed : List ℕ) × (lines : List Line)
        × HasPassed log passed lines stage.allocated.items × IsStageAfter lines stage }
    ensures { (passed : List ℕ) (lines : List Line)
        → HasPassed log passed lines stage.allocated.items → IsStageAfter lines stage → IsAtEnd log
        → IsOfLog log.spans (passed ++ log.window.items) result }
{
    match finish(alloc, stage, log) {
        Ok((read, texts)) => LogByTexts {
            read: Ok(read),
            texts,
        },
        Err(_) => LogByTexts::unread(alloc, LogError::NoMemory),
    }
}
