//! What chosen blocks hold, or who holds them.

ghost use Rattle.std.specs.Prelude.{◌≡◌, IfOk};
ghost use Rattle.leak_holder_search.specs.Analyses.{IsAnalysis};
ghost use Rattle.leak_holder_search.specs.Answers.{IsChoice, IsHeld};

use crate::analysis::{Analysis, count_texts, table_of};
use crate::choosing::{Choice, in_both};
use leak_holders::{
    BlockGraph, CallerShare, Progress, Side, Workers, held_blocks, holders_of, parts_of,
};
use std::alloc::{AllocError, Global};
use std::thread::Threads;

/// An answer about chosen blocks.
#[derive(Drop)]
pub(crate) struct Held {
    /// For each block, whether it is told: counted and held by the chosen ones, or counted, reached and chosen.
    pub(crate) told: Vec<bool>,
    /// A row for each text.
    pub(crate) parts: Vec<CallerShare>,
}

/// What the chosen blocks hold, or which other texts than that of the asked block hold them.
///
/// The only error is refused memory.
pub(crate) fn held_of<R: Threads + Sync, P: Progress>(
    workers: &Workers<'_, R, P>,
    alloc: Global,
    analysis: &Analysis,
    choice: &Choice,
) -> Result<Held, AllocError>
    requires known { IsAnalysis analysis.now }
    requires choice { IsChoice analysis.now choice.now }
    ensures { IfOk result (IsHeld analysis.now choice.now choice.now.question.side) }
{
    match choice.question.side {
        Side::In => held_in(alloc, analysis, choice),
        Side::Of => held_by(workers, alloc, analysis, choice),
    }
}

/// What the chosen blocks hold.
fn held_in(alloc: Global, analysis: &Analysis, choice: &Choice) -> Result<Held, AllocError>
    requires known { IsAnalysis analysis.now }
    requires choice { IsChoice analysis.now choice.now }
    ensures { IfOk result (IsHeld analysis.now choice.now Side.In) }
{
    let (edges, table) = (&analysis.listed.listing, table_of(analysis));
    let held = held_blocks(alloc, edges, edges.first(), choice.set.as_slice())?;
    let held = held.as_slice();
    let parts = parts_of(alloc, &table, count_texts(analysis), held)?;
    let told = in_both(alloc, held, table.counted)?;
    Ok(Held { told, parts })
}

/// Which other texts than that of the asked block hold the chosen blocks.
fn held_by<R: Threads + Sync, P: Progress>(
    workers: &Workers<'_, R, P>,
    alloc: Global,
    analysis: &Analysis,
    choice: &Choice,
) -> Result<Held, AllocError>
    requires known { IsAnalysis analysis.now }
    requires choice { IsChoice analysis.now choice.now }
    ensures { IfOk result (IsHeld analysis.now choice.now Side.Of) }
{
    let (edges, table) = (&analysis.listed.listing, table_of(analysis));
    let (texts, but) = (count_texts(analysis), table.numbers[choice.block]);
    let (first, set) = (edges.first(), choice.set.as_slice());
    let graph = BlockGraph {
        edges,
        first,
        table,
    };
    let parts = holders_of(workers, alloc, &graph, texts, set, but)?;
    let told = in_both(alloc, choice.own.as_slice(), table.counted)?;
    Ok(Held { told, parts })
}
