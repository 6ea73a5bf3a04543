//! Samples, and marking of them.
ghost use Rattle.std.specs.Prelude.{◌≡◌, []};

use crate::samples::{core_of, sample_of};
use leak_index::{Reading, Sorted};
use leak_pool::{Gate, Marked, Plan, Start, mark, mark_alone};
use std::alloc::Global;
use std::fmt::Write;
use std::test::Fail;

/// Where `rbx` of the sample core's thread is: at byte 348 of the file.
pub(crate) const RBX: u64 = 0xf15c;

/// How many turns a worker waits for another, at most.
pub(crate) const TURNS: u64 = 1_000_000_000;

/// Words of the sample core, each by its address, and a log.
#[derive(Drop)]
pub(crate) struct Sample {
    pub(crate) words: Vec<(u64, u64)>,
    pub(crate) log: String,
}

/// Writes the line of a block.
fn add_block(log: &mut String, start: u64, size: u64) -> Result<(), Fail> {
    write!(log, "+ {start:#x} {size:#x}\n")?;
    Ok(())
}

/// Two blocks, of which the first and the last word of the core lead to one each.
pub(crate) fn two_apart(alloc: Global) -> Result<Sample, Fail> {
    let mut words = Vec::new(alloc);
    let mut log = String::new(alloc);
    words.push((0x10000, 0x10100))?;
    words.push((0x10ff8, 0x10200))?;
    add_block(&mut log, 0x10100, 0x20)?;
    add_block(&mut log, 0x10200, 0x10)?;
    Ok(Sample { words, log })
}

/// Two blocks that root words lead to, and one that the second of them leads to.
pub(crate) fn lead_of_the_second(alloc: Global) -> Result<Sample, Fail> {
    let mut words = Vec::new(alloc);
    let mut log = String::new(alloc);
    words.push((0x10008, 0x10100))?;
    words.push((0x10010, 0x10200))?;
    words.push((0x10200, 0x10300))?;
    add_block(&mut log, 0x10100, 0x20)?;
    add_block(&mut log, 0x10200, 0x10)?;
    add_block(&mut log, 0x10300, 0x10)?;
    Ok(Sample { words, log })
}

/// A start that marks nothing.
pub(crate) fn no_start(alloc: Global) -> Start
    ensures { (result.marked.items ≡ []) × (result.rescan.items ≡ []) }
{
    Start {
        marked: Vec::new(alloc),
        rescan: Vec::new(alloc),
    }
}

/// Marks a sample on the caller's thread.
pub(crate) fn alone(alloc: Global, sample: &Sample) -> Result<Marked, Fail> {
    let core = core_of(alloc, sample.words.as_slice())?;
    let sample = sample_of(alloc, core.as_slice(), sample.log.as_str())?;
    let lookup = Sorted::new(&sample.live, Reading::interior());
    Ok(mark_alone(alloc, &sample.image, &lookup, &sample.roots, &sample.live)?)
}

/// Marks a sample by workers.
pub(crate) fn by_workers<R: std::thread::Threads + Sync, G: Gate + Sync>(
    rt: &R,
    alloc: Global,
    sample: &Sample,
    plan: Plan,
    gate: &G,
) -> Result<Marked, Fail> {
    let core = core_of(alloc, sample.words.as_slice())?;
    let sample = sample_of(alloc, core.as_slice(), sample.log.as_str())?;
    let lookup = Sorted::new(&sample.live, Reading::interior());
    Ok(mark(
        rt,
        alloc,
        &sample.image,
        &lookup,
        &sample.roots,
        &sample.live,
        plan,
        gate,
    )?)
}

/// How many blocks are marked.
pub(crate) fn marked_count(marked: &Marked) -> usize {
    marked.set.iter().filter(|block| **block).count()
}

/// How many claims there are on all lists.
pub(crate) fn claim_count(marked: &Marked) -> usize {
    let mut claims = 0usize;
    for list in marked.claims.as_slice() {
        claims = claims.wrapping_add(list.len());
    }
    claims
}
