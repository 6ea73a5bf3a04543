//! How many words of a core a scan reads, one by one and in runs.
ghost use Rattle.std.specs.Prelude.{◌≡◌, ℕ, List, Option};
ghost use Rattle.leak_elf.specs.Words.{word_of};
ghost use Rattle.leak_elf.specs.Aligned.{aligned_words};

use crate::comparisons::{same, same_in};
use crate::samples::lives;
use crate::scan::{block, listed};
use leak_elf::{Image, Words, core_k};
use leak_index::{Reading, Sorted};
use leak_scan::{BlockRuns, Pages, Targets, list_run};
use std::cell::Cell;
use std::test::Fail;

/// The words of a core, which gives no runs and counts the words that are read.
#[derive(Drop)]
pub(crate) struct Counted<'a> {
    image: &'a Image<'a>,
    asked: Cell<u64>,
}

impl<'a> Counted<'a> {
    pub(crate) fn new(image: &'a Image<'a>) -> Counted<'a> {
        Counted {
            image,
            asked: Cell::new(0),
        }
    }

    /// How many words were read.
    pub(crate) fn asked(&self) -> u64 {
        self.asked.get()
    }
}

impl<'a> Words for Counted<'a> {
    ghost word_at = { λ counted. word_of counted.image.now };

    fn word(&self, addr: u64) -> Option<u64> {
        self.asked.set(self.asked.get().wrapping_add(1));
        self.image.word(addr)
    }

    fn next(&self, from: u64) -> Option<u64> {
        self.image.next(from)
    }

    ghost aligned = { λ counted. aligned_words counted.image.now };
}

/// The words of a core, which gives the runs of the core, and counts them together with the words that are read.
#[derive(Drop)]
struct CountedRuns<'a> {
    image: &'a Image<'a>,
    asked: Cell<u64>,
    runs: Cell<u64>,
}

impl<'a> CountedRuns<'a> {
    fn new(image: &'a Image<'a>) -> CountedRuns<'a> {
        CountedRuns {
            image,
            asked: Cell::new(0),
            runs: Cell::new(0),
        }
    }
}

impl<'a> Words for CountedRuns<'a> {
    ghost word_at = { λ counted. word_of counted.image.now };

    fn word(&self, addr: u64) -> Option<u64> {
        self.asked.set(self.asked.get().wrapping_add(1));
        self.image.word(addr)
    }

    fn next(&self, from: u64) -> Option<u64> {
        self.image.next(from)
    }

    fn run(&self, from: u64) -> &[u8] {
        self.runs.set(self.runs.get().wrapping_add(1));
        self.image.run(from)
    }

    ghost aligned = { λ counted. aligned_words counted.image.now };
}

/// Blocks that hold words completely and in part: start, size, and how many words they hold in the core.
const BLOCKS: [(u64, u64, u64); 12] = [
    (0x10104, 0x14, 2),
    (0x10104, 12, 1),
    (0x10104, 11, 0),
    (0x10104, 8, 0),
    (0x10101, 15, 1),
    (0x10101, 14, 0),
    (0x10100, 8, 1),
    (0x10100, 7, 0),
    (0x10107, 1, 0),
    (0x10100, 0, 0),
    // the core ends after the first page
    (0x10ff4, 0x14, 1),
    (0xfff4, 0x14, 1),
];

#[test]
fn a_scan_asks_for_the_words_of_the_block_alone(rt: HostRuntime) -> Result<(), Fail> {
    let alloc = rt.alloc();
    let core = core_k(alloc, &[])?;
    let image = Image::read(alloc, core.as_slice())?;
    let live = lives(alloc, "+ 0x20000 0x20\n")?;
    let lookup = Sorted::new(&live, Reading::interior());
    for (start, size, words) in BLOCKS {
        let block = block(start, size);
        let counted = Counted::new(&image);
        let found = listed(alloc, Targets::of_block(&counted, &lookup, &block))?;
        same_in(&rt, &(start, size), found.len(), 0);
        same_in(&rt, &(start, size), counted.asked(), words);
        for (page, here) in [(15, 0), (16, words), (17, 0)] {
            let Some(pages) = Pages::new(Vec::from_slice(alloc, &[page])?) else {
                return Ok(assert!(rt; false, "one number ascends"));
            };
            let counted = Counted::new(&image);
            let targets = Targets::of_block_pages(&counted, &lookup, &block, &pages);
            same_in(&rt, &(start, size, page), listed(alloc, targets)?.len(), 0);
            same_in(&rt, &(start, size, page), counted.asked(), here);
        }
    }
    Ok(())
}

#[test]
fn runs_are_taken_in_place_of_words(rt: HostRuntime) -> Result<(), Fail> {
    let alloc = rt.alloc();
    let core = core_k(alloc, &[])?;
    let image = Image::read(alloc, core.as_slice())?;
    let live = lives(alloc, "+ 0x20000 0x20\n")?;
    let lookup = Sorted::new(&live, Reading::interior());
    // the words of an aligned block come in one run; of an unaligned one a word is read before a run
    let cases = [
        (0x10100, 0x20, 0, 1),
        (0x10100, 8, 0, 1),
        (0x10104, 0x14, 1, 2),
        (0x10104, 12, 1, 1),
        (0x10104, 8, 0, 1),
        (0x10100, 7, 0, 0),
    ];
    for (start, size, words, runs) in cases {
        let counted = CountedRuns::new(&image);
        let targets = Targets::of_block(&counted, &lookup, &block(start, size));
        same_in(&rt, &(start, size), listed(alloc, targets)?.len(), 0);
        same_in(&rt, &(start, size), counted.asked.get(), words);
        same_in(&rt, &(start, size), counted.runs.get(), runs);
    }
    // 480 words of it are in the core
    let huge = block(0x10100, 0x1000_0000_0000_0000);
    let counted = CountedRuns::new(&image);
    let targets = Targets::of_block(&counted, &lookup, &huge);
    same(&rt, listed(alloc, targets)?.len(), 0);
    same(&rt, (counted.asked.get(), counted.runs.get()), (0, 2));
    Ok(())
}

#[test]
fn blocks_in_one_run_ask_for_it_once(rt: HostRuntime) -> Result<(), Fail> {
    let alloc = rt.alloc();
    let words = [(0x10100, 0x10200), (0x10118, 0x10210), (0x10128, 0x10240)];
    let core = core_k(alloc, &words)?;
    let image = Image::read(alloc, core.as_slice())?;
    let live = lives(alloc, "+ 0x10200 0x20\n+ 0x10220 0x20\n")?;
    assert!(rt; live.blocks().len() == 2);
    let lookup = Sorted::new(&live, Reading::interior());
    let counted = CountedRuns::new(&image);
    let mut runs = BlockRuns::new(&counted);
    // the second has a byte more than its words, and the third begins before both
    let starts = [(0x10100, 0x20), (0x10120, 0x11), (0x100f0, 0x18)];
    let found: [&[u32]; 3] = [&[0, 0], &[1], &[0]];
    for ((start, size), wanted) in starts.iter().zip(found) {
        let mut targets = Vec::new(alloc);
        let Some(bytes) = runs.of_block(&block(*start, *size)) else {
            return Ok(assert!(rt; false, "{start} is in the core"));
        };
        assert!(rt; list_run(&lookup, bytes, 2, &mut targets)?, "{start}");
        same_in(&rt, &start, targets.as_slice(), wanted);
    }
    same(&rt, (counted.asked.get(), counted.runs.get()), (0, 2));
    Ok(())
}

#[test]
fn blocks_outside_a_run_have_no_bytes(rt: HostRuntime) -> Result<(), Fail> {
    let alloc = rt.alloc();
    let core = core_k(alloc, &[])?;
    let image = Image::read(alloc, core.as_slice())?;
    let mut runs = BlockRuns::new(&image);
    // (the core ends at 0x11000; a block of less than 8 bytes has no word)
    let cases = [
        (0x10ff0, 0x10, Some(0x10)),
        (0x10ff0, 0x17, Some(0x10)),
        (0x10ff0, 0x18, None),
        (0x10ff4, 0x8, None),
        (0x10ff4, 0x7, Some(0)),
        (0x20000, 0x8, None),
        (0x10000, 0x1000, Some(0x1000)),
    ];
    for (start, size, bytes) in cases {
        let found = runs.of_block(&block(start, size)).map(|run| run.len());
        same_in(&rt, &(start, size), found, bytes);
    }
    Ok(())
}

#[test]
fn a_run_with_more_targets_than_room_is_told(rt: HostRuntime) -> Result<(), Fail> {
    let alloc = rt.alloc();
    let core = core_k(alloc, &[(0x10100, 0x10200), (0x10108, 0x10220)])?;
    let image = Image::read(alloc, core.as_slice())?;
    let live = lives(alloc, "+ 0x10200 0x20\n+ 0x10220 0x20\n")?;
    assert!(rt; live.blocks().len() == 2);
    let lookup = Sorted::new(&live, Reading::interior());
    let Some(bytes) = BlockRuns::new(&image).of_block(&block(0x10100, 0x10)) else {
        return Ok(assert!(rt; false, "the block is in the core"));
    };
    // the second word is one past the end of the first block, too
    for (room, fits) in [(0, false), (1, false), (2, false), (3, true)] {
        let mut targets = Vec::new(alloc);
        same_in(
            &rt,
            &room,
            list_run(&lookup, bytes, room, &mut targets)?,
            fits,
        );
        same_in(&rt, &room, targets.len(), room);
    }
    Ok(())
}
