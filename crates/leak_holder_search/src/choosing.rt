//! Sets of blocks, block by block.

ghost use Rattle.std.specs.Prelude.{◌≡◌, ◌==◌, ◌<◌, length, slice_index, if◌then◌else◌, IfOk};
ghost use Rattle.leak_why.specs.Asked.{IsAsked};
ghost use Rattle.leak_holder_search.specs.Analyses.{IsAnalysis, blocks_in};
ghost use Rattle.leak_holder_search.specs.Answers.{IsChoice};
ghost use Rattle.leak_holder_search.specs.Held.{both, chosen_with};

use crate::analysis::{Analysis, table_of};
use leak_holders::Question;
use std::alloc::{AllocError, Global};

/// The blocks that a question is about.
#[derive(Drop)]
pub(crate) struct Choice {
    pub(crate) question: Question,
    /// The number of the block that its address asks for.
    pub(crate) block: usize,
    /// For each block, whether it is chosen.
    pub(crate) set: Vec<bool>,
    /// For each block, whether it is chosen and a chain reaches it.
    pub(crate) own: Vec<bool>,
}

/// Chooses the blocks of a question, of which the address asks for the block with the number.
pub(crate) fn choice_of(
    alloc: Global,
    analysis: &Analysis,
    question: Question,
    block: usize,
) -> Result<Choice, AllocError>
    requires known { IsAnalysis analysis.now }
    requires asked { IsAsked (blocks_in analysis.now) question.address block }
    ensures are { IfOk result (IsChoice analysis.now) }
    ensures of { IfOk result (λ choice. choice.question ≡ question) }
{
    let table = table_of(analysis);
    let set = chosen(alloc, table.numbers, block, question.alone)?;
    let own = in_both(alloc, set.as_slice(), table.reached)?;
    Ok(Choice {
        question,
        block,
        set,
        own,
    })
}

/// For each block, by the numbers of texts, whether it is the one with the number, alone, or has its text.
fn chosen(
    alloc: Global,
    numbers: &[u32],
    block: usize,
    alone: bool,
) -> Result<Vec<bool>, AllocError>
    requires { block < length numbers.now }
    ensures { IfOk result (λ set. set.items ≡ chosen_with numbers.now block alone) }
{
    let mut set = Vec::with_capacity(alloc, numbers.len())?;
    for b in 0..numbers.len() {
        set.push(is_chosen(numbers, block, alone, b))?;
    }
    Ok(set)
}

/// Whether the block b is chosen.
fn is_chosen(numbers: &[u32], block: usize, alone: bool, b: usize) -> bool
    requires asked { block < length numbers.now }
    requires one { b < length numbers.now }
    ensures { result ≡ (if alone then b == block
        else slice_index numbers.now b == slice_index numbers.now block) }
{
    if alone {
        b == block
    } else {
        numbers[b] == numbers[block]
    }
}

/// For each block, whether it is of both sets.
pub(crate) fn in_both(alloc: Global, xs: &[bool], ys: &[bool]) -> Result<Vec<bool>, AllocError>
    requires { length ys.now ≡ length xs.now }
    ensures { IfOk result (λ set. set.items ≡ both xs.now ys.now) }
{
    let mut set = Vec::with_capacity(alloc, xs.len())?;
    for b in 0..xs.len() {
        set.push(xs[b] & ys[b])?;
    }
    Ok(set)
}
