//! The rows of the texts.

ghost use Rattle.std.specs.Prelude.{length, IfOk};
ghost use Rattle.leak_holder_search.specs.Analyses.{AreRowsIn, IsAnalysis, blocks_in, texts_in};
ghost use Rattle.leak_holder_search.specs.Text.{AreRowsOf};

use crate::analysis::{Analysis, count_texts, table_of};
use leak_holders::{BlockGraph, Holder, Progress, Workers, holders};
use std::alloc::{AllocError, Global};
use std::thread::Threads;

/// The rows of the texts that hold blocks of an input.
///
/// The only error is refused memory.
pub(crate) fn rows_of<R: Threads + Sync, P: Progress>(
    workers: &Workers<'_, R, P>,
    alloc: Global,
    analysis: &Analysis,
) -> Result<Vec<Holder>, AllocError>
    requires { IsAnalysis analysis.now }
    ensures are { IfOk result (λ rows. AreRowsIn analysis.now rows.items) }
    ensures inside { IfOk result (λ rows. AreRowsOf (length (blocks_in analysis.now))
        (length (texts_in analysis.now)) rows.items) }
{
    let edges = &analysis.listed.listing;
    let graph = BlockGraph {
        edges,
        first: edges.first(),
        table: table_of(analysis),
    };
    holders(workers, alloc, &graph, count_texts(analysis))
}
