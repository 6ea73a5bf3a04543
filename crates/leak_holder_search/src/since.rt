//! Which blocks are counted.

ghost use Rattle.std.specs.Prelude.{◌≡◌, map, nat_lt, option_map, IfOk, true};
ghost use Rattle.leak_holder_search.specs.Since.{counted_of, earlier, is_continued_from};

use crate::logs::Logs;
use leak_blocks::Block;
use leak_search::count_lines;
use std::alloc::{AllocError, Global};

/// Whether the complete lines of the earlier log, if there is one, begin the log.
pub(crate) fn is_continued(logs: &Logs) -> bool
    ensures { result ≡ is_continued_from (earlier logs.now.since) logs.now.log.now }
{
    match logs.since {
        Some(log) => leak_search::is_continued(log, logs.log),
        None => true,
    }
}

/// For each block, whether it is counted: if there is an earlier log, those of lines after its complete ones.
pub(crate) fn counted(
    alloc: Global,
    since: Option<&[u8]>,
    blocks: &[Block],
) -> Result<Vec<bool>, AllocError>
    ensures { IfOk result (λ counted. counted.items ≡ counted_of (earlier since.entry) blocks.now) }
{
    match since {
        Some(log) => later(alloc, blocks, count_lines(log)),
        None => all(alloc, blocks),
    }
}

/// Which blocks are counted, if there is an earlier log.
pub(crate) fn new<'a>(since: Option<&[u8]>, counted: &'a [bool]) -> Option<&'a [bool]>
    ensures { option_map (λ s. s.now) result
        ≡ option_map (λ _. counted.now) (earlier since.entry) }
{
    match since {
        Some(_) => Some(counted),
        None => None,
    }
}

/// For each block, whether its line comes after this many.
fn later(alloc: Global, blocks: &[Block], lines: usize) -> Result<Vec<bool>, AllocError>
    ensures { IfOk result (λ later. later.items ≡ map (λ b. nat_lt lines b.line) blocks.now) }
{
    blocks.iter().map(|block| lines < block.line).collect(alloc)
}

/// That each block is counted.
fn all(alloc: Global, blocks: &[Block]) -> Result<Vec<bool>, AllocError>
    ensures { IfOk result (λ all. all.items ≡ map (λ b. true) blocks.now) }
{
    blocks.iter().map(|_| true).collect(alloc)
}
