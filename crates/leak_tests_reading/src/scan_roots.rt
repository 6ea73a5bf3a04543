//! Root words with links to free chunks, and without them.

use crate::comparisons::same;
use crate::samples::lives;
use crate::scan::listed;
use crate::scan_counted::Counted;
use leak_elf::{Image, core_k};
use leak_index::{Reading, Sorted};
use leak_scan::Targets;
use std::alloc::Global;
use std::test::Fail;

const BLOCK: &str = "+ 0x10100 0x20\n";

const NEIGHBORS: &str = "+ 0x10100 0x20\n+ 0x10120 0x8\n";

/// What the words of a range of the core lead to: with links, and without them, by runs and word by word.
fn targets_with(
    alloc: Global,
    core: &[u8],
    log: &str,
    range: (u64, u64),
) -> Result<(Vec<usize>, Vec<usize>, Vec<usize>), Fail> {
    let (from, to) = range;
    let image = Image::read(alloc, core)?;
    let live = lives(alloc, log)?;
    let sorted = Sorted::new(&live, Reading::interior());
    let plain = listed(alloc, Targets::of_range(&image, &sorted, from, to))?;
    let by_runs = listed(
        alloc,
        Targets::of_root_range(&image, &sorted, &live, from, to),
    )?;
    let counted = Counted::new(&image);
    let by_words = listed(
        alloc,
        Targets::of_root_range(&counted, &sorted, &live, from, to),
    )?;
    Ok((plain, by_runs, by_words))
}

#[test]
fn a_word_of_a_list_leads_nowhere(rt: HostRuntime) -> Result<(), Fail> {
    let alloc = rt.alloc();
    // the head of a list leads to the chunk after the block, which leads back
    let core = core_k(
        alloc,
        &[(0x100f8, 0x31), (0x10008, 0x10120), (0x10138, 0xfff8)],
    )?;
    for range in [(0x10000, 0x10100), (0x10008, 0x10010)] {
        let (plain, by_runs, by_words) = targets_with(alloc, core.as_slice(), BLOCK, range)?;
        same(&rt, plain.as_slice(), [0].as_slice());
        same(&rt, by_runs.len(), 0);
        same(&rt, by_words.len(), 0);
        // it leads to the block that begins there
        let (plain, by_runs, by_words) = targets_with(alloc, core.as_slice(), NEIGHBORS, range)?;
        same(&rt, plain.as_slice(), [0, 1].as_slice());
        same(&rt, by_runs.as_slice(), [1].as_slice());
        same(&rt, by_words.as_slice(), [1].as_slice());
    }
    Ok(())
}

#[test]
fn other_words_lead_as_ever(rt: HostRuntime) -> Result<(), Fail> {
    let alloc = rt.alloc();
    // the chunk leads back to the second word, and the first leads to the same end of the block
    let core = core_k(
        alloc,
        &[
            (0x100f8, 0x31),
            (0x10008, 0x10120),
            (0x10010, 0x10120),
            (0x10138, 0x10000),
            (0x10020, 0x10108),
        ],
    )?;
    let cases = [
        ((0x10000, 0x10010), 1, 1),
        ((0x10000, 0x1000f), 0, 0),
        ((0x10010, 0x10018), 1, 0),
        ((0x10000, 0x10100), 3, 2),
        ((0x10018, 0x10100), 1, 1),
        ((0x10028, 0x10100), 0, 0),
    ];
    for (range, with, without) in cases {
        let (plain, by_runs, by_words) = targets_with(alloc, core.as_slice(), BLOCK, range)?;
        same(&rt, plain.len(), with);
        same(&rt, by_runs.len(), without);
        same(&rt, by_words.len(), without);
    }
    Ok(())
}
