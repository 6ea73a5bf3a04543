//! Words of a core that marking does not need are let go.

ghost use Rattle.std.specs.Prelude.{◌≡◌, ◌⊎◌, [], ◌++◌, None, IfOk, IfErr, IsTrue};
ghost use Rattle.leak_elf.specs.Head.{IsHead};
ghost use Rattle.leak_elf.specs.Refusals.{fault_of};
ghost use Rattle.leak_sift.specs.Behind.{HasWords, bytes_behind};
ghost use Rattle.leak_alike.specs.AlikeToMark.{ReadsPointersAlone};
ghost use Rattle.leak_passing.specs.Prepared.{IsLeftToMark};

use leak_blocks::{Live, SmallSpans};
use leak_elf::Image;
use leak_notes::Threads;
use leak_pool::EdgeRoom;
use leak_roots::Skip;
use leak_search::{FindError, Input};
use leak_sift::{Behind, range_of};
use leak_sparse::SparseWords;
use std::alloc::Global;

/// What is known of an input but its core.
#[derive(Drop)]
pub(crate) struct WithoutCore {
    pub(crate) threads: Threads,
    pub(crate) live: Live,
    pub(crate) skip: Skip,
    pub(crate) heap_spans: SmallSpans,
    /// How many of the log's lines are torn.
    pub(crate) torn: u64,
}

/// What is left of a core and its log once it is known which blocks fit.
#[derive(Drop)]
pub(crate) struct Left {
    /// The core's head, or the whole core.
    pub(crate) held: Vec<u8>,
    /// The words behind the head that marking needs.
    pub(crate) words: SparseWords,
    /// How many bytes the core has behind what is held.
    pub(crate) len: u64,
    /// What is known of the input but its core.
    pub(crate) others: WithoutCore,
}

/// What is known of the input but its core.
pub(crate) fn without_core(input: Input) -> WithoutCore
    ensures threads { result.threads ≡ input.entry.threads }
    ensures live { result.live ≡ input.entry.live }
    ensures skip { result.skip ≡ input.entry.skip }
    ensures spans { result.heap_spans ≡ input.entry.heap_spans }
    ensures torn { result.torn ≡ input.entry.torn }
{
    let Input {
        threads,
        live,
        skip,
        heap_spans,
        torn,
        ..
    } = input;
    WithoutCore {
        threads,
        live,
        skip,
        heap_spans,
        torn,
    }
}

/// Whether words are read as pointers alone, once it is known which blocks fit: slack, dead stack and links to free
/// chunks are found by other words, too.
fn reads_pointers_alone(skip: Skip) -> bool
    ensures { IsTrue result → ReadsPointersAlone skip }
{
    !skip.slack && !skip.dead && !skip.links
}

/// The words without those that marking does not need: malloc's size words and what may be one are most of the words that
/// are kept. It works in the memory of the words.
pub(crate) fn left_to_mark(words: SparseWords, live: &Live, skip: Skip) -> SparseWords
    ensures { IsLeftToMark skip live.now.blocks words result }
{
    if !reads_pointers_alone(skip) {
        return words;
    }
    let (low, high) = range_of(live.blocks());
    words.retain_between(low, high)
}

/// The input of a core that was accepted, of which the first bytes are held, and of the bytes behind them these words.
pub(crate) fn input_to_mark<'a>(
    alloc: Global,
    held: &'a [u8],
    behind: (&'a SparseWords, u64),
    others: WithoutCore,
) -> Result<Input<'a>, FindError>
    requires words { HasWords behind.0.now behind.1 }
    requires head { (bytes_behind behind.0.now behind.1 ≡ []) ⊎ IsHead held.now }
    requires accepted { fault_of (held.now ++ bytes_behind behind.0.now behind.1) ≡ None }
    ensures image { IfOk result (λ input.
        input.image ≡ held.now ++ bytes_behind behind.entry.0.now behind.entry.1) }
    ensures threads { IfOk result (λ input. input.threads ≡ others.threads) }
    ensures live { IfOk result (λ input. input.live ≡ others.live) }
    ensures skip { IfOk result (λ input. input.skip ≡ others.skip) }
    ensures spans { IfOk result (λ input. input.heap_spans ≡ others.heap_spans) }
    ensures torn { IfOk result (λ input. input.torn ≡ others.torn) }
    ensures memory { IfErr result (λ e. e ≡ FindError.NoMemory) }
{
    let rest = Behind::new(behind.0, behind.1)?;
    let Ok(image) = Image::passed(alloc, held, rest) else {
        return Err(FindError::NoMemory); // an accepted core has no fault
    };
    Ok(Input {
        edges: EdgeRoom::of_size(image.len()),
        image,
        threads: others.threads,
        live: others.live,
        skip: others.skip,
        heap_spans: others.heap_spans,
        torn: others.torn,
    })
}
