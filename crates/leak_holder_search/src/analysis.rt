//! What is marked, and which blocks are counted.

ghost use Rattle.std.specs.Prelude.{◌≡◌, length, IfOk};
ghost use Rattle.leak_holders.specs.Holders.{AreComplete};
ghost use Rattle.leak_holder_search.specs.Analyses.{IsAnalysis, IsAnalysisOf, IsTableOf, texts_in};
ghost use Rattle.leak_holder_search.specs.Listed.{IsListed};

use crate::logs::Logs;
use crate::since::counted;
use leak_blocks::Live;
use leak_holders::{BlockTable, reached_blocks};
use leak_report::{Texts, number_texts};
use leak_search::ListedInput;
use std::alloc::{AllocError, Global};

/// What a question needs to know of an input.
#[derive(Drop)]
pub(crate) struct Analysis<'a, 'b> {
    /// The log of the input, and maybe an earlier one.
    pub(crate) logs: Logs<'b>,
    pub(crate) live: &'a Live,
    /// What the words of the input lead to.
    pub(crate) listed: ListedInput,
    /// For each block, whether a chain reaches it.
    pub(crate) set: Vec<bool>,
    /// The texts of the callers, and the number of each block's.
    pub(crate) texts: Texts<'b>,
    /// For each block, whether it is counted.
    pub(crate) counted: Vec<bool>,
}

/// Marks the blocks of an input over what its words lead to, numbers its texts, and says which blocks are counted. The log is
/// that of the input.
pub(crate) fn analysis_of<'a, 'b>(
    alloc: Global,
    live: &'a Live,
    listed: ListedInput,
    logs: &Logs<'b>,
) -> Result<Analysis<'a, 'b>, AllocError>
    requires { IsListed live.now listed logs.now }
    ensures { IfOk result (IsAnalysisOf live.now listed logs.now) }
{
    let set = reached_blocks(alloc, &listed.listing, listed.listing.first())?;
    let texts = number_texts(alloc, live.blocks(), logs.log)?;
    let counted = counted(alloc, logs.since, live.blocks())?;
    Ok(Analysis {
        logs: *logs,
        live,
        listed,
        set,
        texts,
        counted,
    })
}

/// What is known of the blocks of an input.
pub(crate) fn table_of<'a>(analysis: &'a Analysis<'_, '_>) -> BlockTable<'a>
    requires { IsAnalysis analysis.now }
    ensures of { IsTableOf analysis.now result }
    ensures complete { AreComplete (length (texts_in analysis.now)) result }
{
    BlockTable {
        blocks: analysis.live.blocks(),
        numbers: analysis.texts.numbers.as_slice(),
        reached: analysis.set.as_slice(),
        counted: analysis.counted.as_slice(),
    }
}

/// How many texts of callers there are.
pub(crate) fn count_texts(analysis: &Analysis) -> u32
    requires { IsAnalysis analysis.now }
    ensures { result ≡ length (texts_in analysis.now) }
{
    analysis.texts.texts.len() as u32
}
