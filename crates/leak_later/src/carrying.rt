//! Finding the blocks of an earlier log in a later one.
ghost use Rattle.std.specs.Prelude.{◌≡◌, ◌<◌, ◌^◌, ◌↔◌, length, map, IfOk, IsTrue};
ghost use Rattle.std.specs.List.Sorted.{IsNonDecreasing};
ghost use Rattle.leak_marks.specs.Lists.{has};
ghost use Rattle.leak_later.specs.Kept.{kept_of, absent_of, has_line, has_marked_line, IsCarry};

use crate::kept::Carry;
use leak_blocks::{Block, Live};
use std::alloc::{AllocError, Global};

/// The lines of the blocks, ascending.
fn sorted_lines(alloc: Global, blocks: &[Block]) -> Result<Vec<usize>, AllocError>
    ensures ascending { IfOk result (λ v. IsNonDecreasing v.items) }
    ensures lines { IfOk result (λ v. (line : _) → has v.items line ≡ has_line blocks.now line) }
{
    let mut lines = Vec::with_capacity(alloc, blocks.len())?;
    for block in blocks {
        lines.push(block.line)?;
    }
    lines.sort_unstable();
    Ok(lines)
}

/// The lines of the marked blocks, ascending.
fn sorted_marked_lines(
    alloc: Global,
    blocks: &[Block],
    marked: &[bool],
) -> Result<Vec<usize>, AllocError>
    requires { length marked.now ≡ length blocks.now }
    ensures ascending { IfOk result (λ v. IsNonDecreasing v.items) }
    ensures lines { IfOk result (λ v.
        (line : _) → has v.items line ≡ has_marked_line marked.now blocks.now line) }
{
    let mut lines = Vec::new(alloc);
    for (i, block) in blocks.iter().enumerate() {
        if marked[i] {
            lines.push(block.line)?;
        }
    }
    lines.sort_unstable();
    Ok(lines)
}

/// Whether the line is one of the lines, which ascend.
fn is_listed(lines: &[usize], line: usize) -> bool
    requires { IsNonDecreasing lines.now }
    ensures { result ≡ has lines.now line }
{
    lines.binary_search(&line).is_ok()
}

/// Finds the blocks of the later log that were marked in the earlier core, one test for each of its blocks, and those
/// that are not of the earlier log.
///
/// The logs are those of one process, of which the earlier begins the later: then a line names one allocation.
pub fn carry(
    alloc: Global,
    earlier: &Live,
    marked: &[bool],
    later: &Live,
) -> Result<Carry, AllocError>
    requires tests { length marked.now ≡ length earlier.now.blocks }
    requires few { length later.now.blocks < 2 ^ 32 }
    ensures kept { IfOk result (λ c.
        c.kept.items ≡ kept_of earlier.now.blocks marked.now later.now.blocks) }
    ensures fresh { IfOk result (λ c.
        c.fresh.items ≡ absent_of earlier.now.blocks later.now.blocks) }
    ensures lists { IfOk result (IsCarry (length later.now.blocks)) }
{
    let lines = sorted_lines(alloc, earlier.blocks())?;
    let marked_lines = sorted_marked_lines(alloc, earlier.blocks(), marked)?;
    let mut kept = Vec::new(alloc);
    let mut fresh = Vec::new(alloc);
    for (number, block) in later.blocks().iter().enumerate() {
        if is_listed(&marked_lines, block.line) {
            kept.push(number as u32)?;
        }
        if !is_listed(&lines, block.line) {
            fresh.push(number as u32)?;
        }
    }
    Ok(Carry { kept, fresh })
}
