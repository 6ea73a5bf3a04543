//! From two logs to the report of what grew.
ghost use Rattle.std.specs.Prelude.{◌≡◌, ◌≢◌, [], ◌∷◌, IfOk, IfErr};
ghost use Rattle.leak_search.specs.Inputs.{at_log};
ghost use Rattle.leak_growth.specs.Growth.{FindsGrowth, IsFaultOfGrowth, read_signs};

use crate::report::{Logs, text};
use leak_blocks::{Replayed, replay_bytes};
use leak_mtrace::LogError;
use leak_report::Signs;
use leak_search::{FindError, count_lines, is_continued};
use std::alloc::{AllocError, Global};

/// What grew between two logs.
#[derive(Drop)]
pub struct Grown {
    /// The lines of the report, each with its line feed.
    pub report: Vec<u8>,
    /// What is odd about each log, in order. No core was looked at, so there are no misfits.
    pub signs: Vec<Signs>,
}

/// The refusal of the log with the number.
fn at_log(number: u8, error: LogError) -> FindError
    ensures { result ≡ at_log number error }
{
    match error {
        LogError::NoMemory => FindError::NoMemory,
        _ => FindError::Log(number, error),
    }
}

/// What is odd about a log.
fn signs_of(log: &Replayed) -> Signs
    ensures { result ≡ read_signs log.now }
{
    Signs {
        live: log.live.blocks().len() as u64,
        torn: log.torn,
        unknown: log.live.unknown(),
        displaced: log.live.displaced(),
        misfits: 0,
    }
}

/// What is odd about two logs.
fn both_signs(alloc: Global, first: &Replayed, second: &Replayed) -> Result<Vec<Signs>, AllocError>
    ensures { IfOk result (λ signs.
        signs.items ≡ read_signs first.now ∷ read_signs second.now ∷ []) }
{
    let mut signs = Vec::with_capacity(alloc, 2)?;
    signs.push(signs_of(first))?;
    signs.push(signs_of(second))?;
    Ok(signs)
}

/// Finds what grew between two logs of one process, of which the complete lines of the first begin the second.
///
/// # Errors
///
/// `Log` with number 1, then with number 2, then `NotPrefix`, then `TooMany` if both logs together have more than 2^32 - 1 live
/// blocks. `NoMemory` can come at any time.
pub fn find_growth(alloc: Global, log1: &[u8], log2: &[u8]) -> Result<Grown, FindError>
    ensures ok { IfOk result (FindsGrowth log1.now log2.now) }
    ensures refused { IfErr result (λ e. e ≢ FindError.NoMemory
        → IsFaultOfGrowth log1.now log2.now e) }
{
    let first = match replay_bytes(alloc, log1) {
        Ok(first) => first,
        Err(error) => return Err(at_log(1, error)),
    };
    let second = match replay_bytes(alloc, log2) {
        Ok(second) => second,
        Err(error) => return Err(at_log(2, error)),
    };
    if !is_continued(log1, log2) {
        return Err(FindError::NotPrefix);
    }
    if first.live.blocks().len() + second.live.blocks().len() > u32::MAX as usize {
        return Err(FindError::TooMany);
    }
    let logs = Logs {
        log1,
        earlier: &first.live,
        log2,
        later: &second.live,
        torn: second.torn,
        after: count_lines(log1),
    };
    let report = text(alloc, &logs)?;
    let signs = both_signs(alloc, &first, &second)?;
    Ok(Grown { report, signs })
}
