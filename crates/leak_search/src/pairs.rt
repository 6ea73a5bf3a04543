//! Two inputs of one process.

ghost use Rattle.std.specs.Prelude.{◌≡◌, ◌≢◌, ◌==◌, count_by, IfOk, IfErr};
ghost use Rattle.leak_mtrace.specs.Log.{is_continued_by, whole_len_of};
ghost use Rattle.leak_search.specs.Inputs.{AreReadTwo, IsFaultOfTwo};

use crate::error::FindError;
use crate::inputs::{Input, read_input};
use leak_roots::Skip;
use std::alloc::Global;

/// Two inputs of one process.
#[derive(Drop)]
pub struct Inputs<'a, 'b> {
    pub first: Input<'a>,
    pub second: Input<'b>,
}

/// How many bytes of a log its complete lines take.
fn whole_len(log: &[u8]) -> usize
    ensures { result ≡ whole_len_of log.now }
{
    let mut len = log.len();
    while len > 0 && log[len - 1] != b'\n' {
        len -= 1;
    }
    len
}

/// Whether the log's complete lines begin the later log.
pub fn is_continued(log: &[u8], later: &[u8]) -> bool
    ensures { result ≡ is_continued_by log.now later.now }
{
    later.starts_with(&log[..whole_len(log)])
}

/// How many lines of the log are complete.
pub fn count_lines(log: &[u8]) -> usize
    ensures { result ≡ count_by (λ b. b == 10) log.now }
{
    log.iter().filter(|b| **b == b'\n').count()
}

/// Reads two inputs, or gives their first fault: those of the first, then those of the second, then that the first
/// log's complete lines don't begin the second log, then that there are too many blocks.
///
/// # Errors
///
/// `Core`, `Notes`, `Log` with number 1, then the same with number 2, then `NotPrefix`, then `TooMany` if a log has more
/// than 2^32 - 1 live blocks. `NoMemory` can come at any time.
pub fn read_two<'a, 'b>(
    alloc: Global,
    skip: Skip,
    core1: &'a [u8],
    log1: &'a [u8],
    core2: &'b [u8],
    log2: &'b [u8],
) -> Result<Inputs<'a, 'b>, FindError>
    ensures read { IfOk result (AreReadTwo core1.now log1.now core2.now log2.now) }
    ensures skip { IfOk result (λ inputs.
        (inputs.first.skip ≡ skip) × (inputs.second.skip ≡ skip)) }
    ensures refused { IfErr result (λ e. e ≢ FindError.NoMemory
        → IsFaultOfTwo core1.now log1.now core2.now log2.now e) }
{
    let first = read_input(alloc, 1, skip, core1, log1)?;
    let second = read_input(alloc, 2, skip, core2, log2)?;
    if !is_continued(log1, log2) {
        return Err(FindError::NotPrefix);
    }
    if first.live.blocks().len() > u32::MAX as usize {
        return Err(FindError::TooMany);
    }
    if second.live.blocks().len() > u32::MAX as usize {
        return Err(FindError::TooMany);
    }
    Ok(Inputs { first, second })
}
