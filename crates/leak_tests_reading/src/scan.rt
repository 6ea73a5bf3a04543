//! Blocks that the words of a range lead to.
ghost use Rattle.std.specs.Prelude.{◌≡◌, IfOk, length};
ghost use Rattle.leak_scan.specs.Targets.{targets_of, block_words};

use crate::comparisons::{same, same_in};
use crate::samples::lives;
use crate::scan_counted::Counted;
use leak_blocks::Block;
use leak_elf::{Image, Words, core_k};
use leak_index::{Lookup, Paged, Reading, Sorted};
use leak_scan::{Pages, Targets, heads, targets_are_blocks};
use std::alloc::{AllocError, Global};
use std::test::Fail;

/// All targets that are still to come.
pub(crate) fn listed<W: Words, L: Lookup>(
    alloc: Global,
    targets: Targets<W, L>,
) -> Result<Vec<usize>, AllocError>
    ensures { IfOk result (λ all. all.items ≡ targets.entry) }
{
    let mut all = Vec::new(alloc);
    for target in targets {
        all.push(target)?;
    }
    Ok(all)
}

/// Marks the blocks that the words of the block lead to.
fn mark_targets<W: Words, L: Lookup>(words: &W, lookup: &L, block: &Block, set: &mut [bool])
    requires { length (L.index lookup.now).blocks ≡ length set.old }
{
    targets_are_blocks();
    for target in Targets::of_block(words, lookup, block) {
        set[target] = true;
    }
}

/// A block that is in no log.
pub(crate) fn block(start: u64, size: u64) -> Block {
    Block {
        start,
        size,
        line: 1,
        caller: (0, 0),
    }
}

/// Words of a core, by their addresses, and blocks that they lead to.
const WORDS: [(u64, u64); 4] = [
    (0x10008, 0x10120),
    (0x10100, 0x10200),
    (0x10108, 0x10240),
    (0x10ff8, 0x10100),
];

const BLOCKS: &str = "+ 0x10100 0x20\n+ 0x10120 0x10\n+ 0x10200 0x40\n";

#[test]
fn targets_of_ranges_and_registers(rt: HostRuntime) -> Result<(), Fail> {
    let alloc = rt.alloc();
    let core = core_k(alloc, &WORDS)?;
    let image = Image::read(alloc, core.as_slice())?;
    let live = lives(alloc, BLOCKS)?;
    let lookup = Sorted::new(&live, Reading::interior());
    let all = listed(alloc, Targets::of_range(&image, &lookup, 0, u64::MAX))?;
    same(&rt, all.as_slice(), [0, 1, 2, 2, 0].as_slice());
    // the word at 0x10008 ends after the range, and the others begin before it
    let none = listed(alloc, Targets::of_range(&image, &lookup, 0x10009, 0x10107))?;
    same(&rt, none.as_slice(), [].as_slice());
    let first = listed(alloc, Targets::of_range(&image, &lookup, 0x10001, 0x10108))?;
    same(&rt, first.as_slice(), [0, 1, 2].as_slice());
    let registers = [0, 0x10200, 0x10120, u64::MAX];
    let led = listed(alloc, Targets::of_registers(&image, &registers, &lookup))?;
    same(&rt, led.as_slice(), [2, 0, 1].as_slice());
    Ok(())
}

#[test]
fn targets_of_blocks(rt: HostRuntime) -> Result<(), Fail> {
    let alloc = rt.alloc();
    let core = core_k(alloc, &WORDS)?;
    let image = Image::read(alloc, core.as_slice())?;
    let live = lives(alloc, BLOCKS)?;
    let lookup = Sorted::new(&live, Reading::interior());
    // 12 bytes hold one word
    let cases: [(u64, &[usize]); 3] = [(0x20, &[2, 2]), (12, &[2]), (0, &[])];
    for (size, targets) in cases {
        let block = block(0x10100, size);
        let found = listed(alloc, Targets::of_block(&image, &lookup, &block))?;
        same_in(&rt, &size, found.as_slice(), targets);
    }
    let mut set = vec![in alloc; false; live.blocks().len()]?;
    mark_targets(&image, &lookup, &block(0x10ff0, 0x10), set.as_mut_slice());
    same(&rt, set.as_slice(), [true, false, false].as_slice());
    Ok(())
}

#[test]
fn a_huge_block_costs_what_is_dumped(rt: HostRuntime) -> Result<(), Fail> {
    let alloc = rt.alloc();
    let core = core_k(alloc, &[(0x10100, 0x10100), (0x10ff8, 0x10ff8)])?;
    let image = Image::read(alloc, core.as_slice())?;
    let live = lives(alloc, "+ 0x10100 0x1000000000000000\n")?;
    let lookup = Sorted::new(&live, Reading::interior());
    let huge = block(0x10100, 0x1000_0000_0000_0000);
    let counted = Counted::new(&image);
    let targets = listed(alloc, Targets::of_block(&counted, &lookup, &huge))?;
    same(&rt, targets.as_slice(), [0, 0].as_slice());
    same(&rt, counted.asked(), 480);
    let by_runs = listed(alloc, Targets::of_block(&image, &lookup, &huge))?;
    same(&rt, by_runs.as_slice(), [0, 0].as_slice());
    Ok(())
}

#[test]
fn words_off_the_pages_are_not_asked_for(rt: HostRuntime) -> Result<(), Fail> {
    let alloc = rt.alloc();
    let core = core_k(alloc, &[(0x10100, 0x10100), (0x10118, 0x10120)])?;
    let image = Image::read(alloc, core.as_slice())?;
    let live = lives(alloc, "+ 0x10100 0x20\n")?;
    let lookup = Sorted::new(&live, Reading::interior());
    let held = block(0x10100, 0x20);
    let cases = [
        ([16].as_slice(), 4, [0, 0].as_slice()),
        ([17].as_slice(), 0, [].as_slice()),
        ([].as_slice(), 0, [].as_slice()),
        ([3, 16, 17, u64::MAX].as_slice(), 4, [0, 0].as_slice()),
        ([15, 17].as_slice(), 0, [].as_slice()),
    ];
    for (numbers, words, blocks) in cases {
        let counted = Counted::new(&image);
        let Some(pages) = Pages::new(Vec::from_slice(alloc, numbers)?) else {
            return Ok(assert!(rt; false, "the numbers ascend"));
        };
        let targets = listed(
            alloc,
            Targets::of_block_pages(&counted, &lookup, &held, &pages),
        )?;
        same(&rt, targets.as_slice(), blocks);
        same(&rt, counted.asked(), words);
        let by_runs = listed(
            alloc,
            Targets::of_block_pages(&image, &lookup, &held, &pages),
        )?;
        same(&rt, by_runs.as_slice(), blocks);
    }
    Ok(())
}

#[test]
fn pages_ascend(rt: HostRuntime) -> Result<(), Fail> {
    let alloc = rt.alloc();
    for numbers in [[16, 16], [17, 16]] {
        assert!(rt; Pages::new(Vec::from_slice(alloc, &numbers)?).is_none());
    }
    let Some(pages) = Pages::new(Vec::from_slice(alloc, &[16, 18])?) else {
        return Ok(assert!(rt; false, "the numbers ascend"));
    };
    same(&rt, pages.numbers(), [16, 18].as_slice());
    for (page, has) in [
        (15, false),
        (16, true),
        (17, false),
        (18, true),
        (u64::MAX, false),
    ] {
        same_in(&rt, &page, pages.has(page), has);
    }
    Ok(())
}

#[test]
fn heads_of_leaked_blocks(rt: HostRuntime) -> Result<(), Fail> {
    let alloc = rt.alloc();
    let three = "+ 0x10100 0x20\n+ 0x10200 0x10\n+ 0x10300 0x8\n";
    let own_word = [(0x10100, 0x10200), (0x10108, 0x10100)];
    let ring = [(0x10100, 0x10200), (0x10200, 0x10100)];
    let cases: [(&[(u64, u64)], &[bool], &[bool]); 5] = [
        (&own_word, &[false, false, false], &[true, false, true]),
        // one past the last byte of the first
        (
            &[(0x10200, 0x10120)],
            &[false, false, false],
            &[false, true, true],
        ),
        (&ring, &[false, false, false], &[false, false, true]),
        // what a marked block leads to may be a head, and a marked block is none
        (&own_word, &[true, false, false], &[false, true, true]),
        (&ring, &[true, true, true], &[false, false, false]),
    ];
    for (words, set, wanted) in cases {
        let core = core_k(alloc, words)?;
        let image = Image::read(alloc, core.as_slice())?;
        let live = lives(alloc, three)?;
        assert!(rt; live.blocks().len() == set.len());
        let sorted = Sorted::new(&live, Reading::interior());
        same(
            &rt,
            heads(alloc, &image, &sorted, &live, set)?.as_slice(),
            wanted,
        );
        let paged = Paged::new(alloc, &live, Reading::interior())?;
        same(
            &rt,
            heads(alloc, &image, &paged, &live, set)?.as_slice(),
            wanted,
        );
    }
    Ok(())
}

#[test]
fn words_of_marked_blocks_are_not_asked_for(rt: HostRuntime) -> Result<(), Fail> {
    let alloc = rt.alloc();
    let core = core_k(alloc, &WORDS)?;
    let image = Image::read(alloc, core.as_slice())?;
    let live = lives(alloc, BLOCKS)?;
    let lookup = Sorted::new(&live, Reading::interior());
    let counted = Counted::new(&image);
    let set = [true, false, true];
    assert!(rt; live.blocks().len() == set.len());
    let found = heads(alloc, &counted, &lookup, &live, &set)?;
    same(&rt, found.as_slice(), [false, true, false].as_slice());
    // the 16 bytes of the second block
    same(&rt, counted.asked(), 2);
    Ok(())
}
