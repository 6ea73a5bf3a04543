//! Marking without a report: the marked blocks, the lists of claims and the rounds.

use crate::hundreds::Sample;
use crate::samples::{MarkingInput, core_of, marking_input, set, set_word};
use leak_index::{Reading, Sorted};
use leak_pool::{EdgeRoom, Gate, Marked, Open, Plan, mark, mark_alone, mark_by_edges};
use std::alloc::Global;
use std::test::Fail;

/// Marks a sample on the caller's thread.
pub fn alone(alloc: Global, sample: &Sample) -> Result<Marked, Fail> {
    let MarkingInput { image, live, roots } = marking_input(
        alloc,
        sample.core.as_slice(),
        sample.log.as_str(),
    )?;
    let lookup = Sorted::new(&live, Reading::interior());
    Ok(mark_alone(alloc, &image, &lookup, &roots, &live)?)
}

/// Marks a sample by the workers of the plan.
pub fn by_plan<R: std::thread::Threads + Sync, G: Gate + Sync>(
    rt: &R,
    alloc: Global,
    sample: &Sample,
    plan: Plan,
    gate: &G,
) -> Result<Marked, Fail> {
    let MarkingInput { image, live, roots } = marking_input(
        alloc,
        sample.core.as_slice(),
        sample.log.as_str(),
    )?;
    let lookup = Sorted::new(&live, Reading::interior());
    Ok(mark(rt, alloc, &image, &lookup, &roots, &live, plan, gate)?)
}

/// Marks a sample by the workers of the plan, over edges if there are no more than the room.
pub fn by_edges<R: std::thread::Threads + Sync>(
    rt: &R,
    alloc: Global,
    sample: &Sample,
    plan: Plan,
    room: usize,
) -> Result<Marked, Fail> {
    let MarkingInput { image, live, roots } = marking_input(
        alloc,
        sample.core.as_slice(),
        sample.log.as_str(),
    )?;
    let lookup = Sorted::new(&live, Reading::interior());
    let bytes = vec![in alloc; 0u8; room.saturating_mul(32)]?;
    let room = EdgeRoom::of_core(bytes.as_slice());
    Ok(mark_by_edges(rt, alloc, &image, &lookup, &roots, &live, plan, &Open, room)?)
}

/// How many blocks are marked.
pub fn marked_count(marked: &Marked) -> usize {
    marked.set.iter().filter(|block| **block).count()
}

/// How many blocks the long chain has.
pub const LONG: u64 = 1200;

/// How many words of the long chain's core are roots: 27 registers, and all of eight pages except one for each block.
pub const LONG_ROOTS: u64 = 27 + 8 * 512 - LONG;

/// The sample core with its memory of one page grown to eight, of zeros.
fn eight_pages(alloc: Global) -> Result<Vec<u8>, Fail> {
    let mut core = core_of(alloc, &[])?;
    // p_filesz and p_memsz of the segment, 32 and 40 bytes into the second program header at 120.
    set(&mut core, 152, &0x8000u64.to_le_bytes());
    set(&mut core, 160, &0x8000u64.to_le_bytes());
    for _ in 0..7 * 4096 {
        core.push(0)?;
    }
    Ok(core)
}

/// 1200 blocks of 8 bytes, with starts 16 apart, each except the last with the start of the next. A root word leads to the first.
pub fn long_chain(alloc: Global) -> Result<Sample, Fail> {
    let mut core = eight_pages(alloc)?;
    let mut log = String::new(alloc);
    set_word(&mut core, 0x10008, 0x10200);
    for i in 0..LONG {
        let start = 0x10200 + 0x10 * i;
        writeln!(log, "+ 0x{start:x} 0x8")?;
        if i + 1 < LONG {
            set_word(&mut core, start, start + 0x10);
        }
    }
    Ok(Sample { core, log })
}
