//! The search of two cores of one process by worker threads.

ghost use Rattle.std.specs.Prelude.{◌≡◌, ◌≢◌, ◌<◌, ◌^◌, ℕ, List, [], ◌∷◌, length, IfOk, IfErr};
ghost use Rattle.std.specs.List.Sorted.{IsStrictlyIncreasing};
ghost use Rattle.leak_marks.specs.Lists.{Has};
ghost use Rattle.leak_mtrace.specs.declared.line.Line.{Line};
ghost use Rattle.leak_blocks.specs.Live.{live_of};
ghost use Rattle.leak_blocks.specs.Span.{AreAddressed, AreDisjoint};
ghost use Rattle.leak_elf.specs.Words.{word_of};
ghost use Rattle.leak_index.specs.Readings.{distances_of};
ghost use Rattle.leak_later.specs.Kept.{IsCarry};
ghost use Rattle.leak_later.specs.Retrace.{IsRetrace};
ghost use Rattle.leak_search.specs.Inputs.{IsInput, ArePaired, AreReadTwo, IsFaultOfTwo};
ghost use Rattle.leak_search.specs.Signs.{AreSigns};
ghost use Rattle.leak_search.specs.SearchTwo.{IsMarkedEarlier, IsBetweenCores, FindsTwo, size_of};

use crate::{
    FindError, Found, Input, Inputs, RootsAndIndex, Rules, Workers, consistency_of_two,
    find_roots_and_index, found_of, head_of, mark_input, read_two, searched_of,
};
use leak_blocks::Block;
use leak_index::Reading;
use leak_later::{
    Carry, Retraced, absent_are_fresh, carry, differing, retrace, same_words_lead_within,
};
use leak_pool::{Gate, Marked};
use leak_report::{CallerTexts, Two};
use leak_scan::Pages;
use std::alloc::Global;
use std::thread::Threads;

/// What marking in the later core begins with.
#[derive(Drop)]
pub(crate) struct Between {
    pub carry: Carry,
    pub pages: Pages,
}

/// Marks the blocks of the first log that chains of its core reach.
fn mark_earlier<R: Threads + Sync, G: Gate + Sync>(
    workers: &Workers<'_, R, G>,
    alloc: Global,
    input: &Input,
    reading: Reading,
) -> Result<Marked, FindError>
    requires read { (lines : List Line) × IsInput lines input.now }
    requires few { length input.now.live.blocks < 2 ^ 32 }
    ensures marked { IfOk result (λ marked. (lines : List Line) → IsInput lines input.now
        → IsMarkedEarlier input.now.image (distances_of reading) input.now.skip lines
        marked.set.items) }
    ensures memory { IfErr result (λ e. e ≡ FindError.NoMemory) }
{
    let indexed = find_roots_and_index(alloc, input, reading)?;
    let marked = mark_input(workers, alloc, input, &indexed)?;
    Ok(marked)
}

/// Marks in the first core, and finds which blocks of the second log are kept or new, and which pages differ.
fn compare<R: Threads + Sync, G: Gate + Sync>(
    workers: &Workers<'_, R, G>,
    alloc: Global,
    inputs: &Inputs,
    reading: Reading,
) -> Result<Between, FindError>
    requires paired { (before : List Line) × (now : List Line) × ArePaired before now inputs.now }
    requires few { (length inputs.now.first.live.blocks < 2 ^ 32)
        × (length inputs.now.second.live.blocks < 2 ^ 32) }
    ensures between { IfOk result (λ between. (before now : List Line)
        → ArePaired before now inputs.now
        → IsBetweenCores inputs.now.first.image inputs.now.second.image (distances_of reading)
        inputs.now.first.skip before now between) }
    ensures memory { IfErr result (λ e. e ≡ FindError.NoMemory) }
{
    // (a law, for the proof: blocks that the first log lacks are new)
    absent_are_fresh();
    let marked = mark_earlier(workers, alloc, &inputs.first, reading)?;
    let carry = carry(
        alloc,
        &inputs.first.live,
        marked.set.as_slice(),
        &inputs.second.live,
    )?;
    let pages = differing(workers.rt, alloc, &inputs.first.image, &inputs.second.image)?;
    Ok(Between { carry, pages })
}

/// Marks in the later core from what was marked in the earlier one.
fn mark_later<R: Threads + Sync, G: Gate + Sync>(
    workers: &Workers<'_, R, G>,
    alloc: Global,
    input: &Input,
    indexed: &RootsAndIndex,
    between: &Between,
) -> Result<Retraced, FindError>
    requires blocks { indexed.now.lookup.blocks ≡ input.now.live.blocks }
    requires carried { IsCarry (length input.now.live.blocks) between.now.carry }
    requires few { length input.now.live.blocks < 2 ^ 32 }
    ensures traced { IfOk result (IsRetrace (word_of input.now.image)
        indexed.now.lookup indexed.now.roots between.now.pages between.now.carry
        workers.now.plan.workers) }
    ensures memory { IfErr result (λ e. e ≡ FindError.NoMemory) }
{
    let retraced = retrace(
        workers.rt,
        alloc,
        &input.image,
        &indexed.lookup,
        &indexed.roots,
        &input.live,
        &between.carry,
        &between.pages,
        workers.plan,
        workers.gate,
    )?;
    Ok(retraced)
}

/// The sum of the sizes of the numbered blocks, in bytes.
fn sum_sizes(blocks: &[Block], numbers: &[u32]) -> u64
    requires addressed { AreAddressed blocks.now }
    requires disjoint { AreDisjoint blocks.now }
    requires ascending { IsStrictlyIncreasing numbers.now }
    requires inside { (b : ℕ) → Has numbers.now b → b < length blocks.now }
    ensures { result ≡ size_of blocks.now numbers.now }
{
    let mut bytes = 0;
    for number in numbers {
        bytes += blocks[*number as usize].size;
    }
    bytes
}

/// The numbers of the report that are of two cores.
fn numbers_of(input: &Input, carry: &Carry, reread: u64) -> Two
    requires { IsCarry (length input.now.live.blocks) carry.now }
    ensures { result ≡ record {
      fresh = length carry.now.fresh.items;
      fresh_bytes = size_of input.now.live.blocks carry.now.fresh.items;
      reread = reread;
    } }
{
    Two {
        fresh: carry.fresh.len() as u64,
        fresh_bytes: sum_sizes(input.live.blocks(), &carry.fresh),
        reread,
    }
}

/// Searches two cores of one process and their logs by the rules and by the workers, with a list of claims for each worker.
///
/// The first log has to begin the second, up to its own last line feed. Marked in the second core are the blocks that
/// were marked in the first core and are still live, those allocated since, and what chains lead to from these and from
/// the roots (after Boehm, Demers and Shenker, PLDI 1991; that new blocks count is own rule). The report is that of the
/// second core and its log, whose misfits it lists if `lists_misfits` is set, and the claims are of the marking there.
///
/// # Errors
///
/// The first refusal of input 1 (`Core`, `Notes`, `Log`), then of input 2, then `NotPrefix`, then `TooMany`. `NoMemory` can
/// come at any time.
pub fn find_two<R: Threads + Sync, G: Gate + Sync>(
    workers: &Workers<'_, R, G>,
    alloc: Global,
    core1: &[u8],
    log1: &[u8],
    core2: &[u8],
    log2: &[u8],
    rules: Rules,
    lists_misfits: bool,
) -> Result<Found, FindError>
    ensures ok { IfOk result (FindsTwo core1.now log1.now core2.now log2.now
        (distances_of rules.reading) rules.skip lists_misfits workers.now.plan.workers) }
    ensures signs { IfOk result (λ found. AreSigns rules.other_heap
        (core1.now ∷ log1.now ∷ core2.now ∷ log2.now ∷ []) found.signs.items) }
    ensures refused { IfErr result (λ e. e ≢ FindError.NoMemory
        → IsFaultOfTwo core1.now log1.now core2.now log2.now e) }
{
    // (a law, for the proof: words on pages that are the same need no second scan)
    same_words_lead_within();
    let inputs = read_two(alloc, rules.skip, core1, log1, core2, log2)?;
    let between = compare(workers, alloc, &inputs, rules.reading)?;
    let (earlier, later) = (&inputs.first, &inputs.second);
    let consistency = consistency_of_two(alloc, earlier, later, lists_misfits, rules.other_heap)?;
    let Inputs { first, second } = inputs;
    drop(first); // no more is asked of it
    let indexed = find_roots_and_index(alloc, &second, rules.reading)?;
    let retraced = mark_later(workers, alloc, &second, &indexed, &between)?;
    let two = numbers_of(&second, &between.carry, retraced.reread);
    let head = head_of(&second, &indexed.roots, Some(two));
    let searched = searched_of(
        alloc,
        &second,
        &indexed.lookup,
        retraced.marked,
        head,
        consistency,
    )?;
    found_of(alloc, &second.live, searched, CallerTexts::OfLog(log2))
}
