//! Lookups if blocks start at multiples of 16, and if they don't.
use crate::comparisons::{same, same_in};
use crate::index::check;
use crate::samples::lives;
use leak_blocks::{Block, Live};
use leak_index::{Hits, Lookup, Paged, Reading, Sorted};
use std::alloc::{AllocError, Global};
use std::process::Abort;
use std::test::Fail;

/// Adds `many` blocks to a log, the distance apart, of the three sizes by turns.
fn add(
    log: &mut String,
    start: u64,
    distance: u64,
    many: u64,
    sizes: &[u64; 3],
) -> Result<(), AllocError> {
    for i in 0..many {
        let at = start.wrapping_add(distance.wrapping_mul(i));
        let size = sizes[(i % 3) as usize];
        writeln!(log, "+ 0x{at:x} 0x{size:x}")?;
    }
    Ok(())
}

/// Sizes of blocks in bytes.
const SMALL: [u64; 3] = [0, 8, 16];

/// Ranges of blocks: where the first starts, how far apart they are, how many there are, and their sizes. They are small ones side by side,
/// some rows apart, far apart, over whole rows, and of which each ends where the next begins.
static RANGES: [(u64, u64, u64, [u64; 3]); 5] = [
    (0x10000, 32, 200, SMALL),
    (0x20_0000, 0x1a40, 40, SMALL),
    (0x7f00_0000_0000, 0x40_0010, 20, SMALL),
    (0x7f80_0000_0000, 0x1230, 40, [0x1220, 0x1220, 0x1220]),
    (0x7fc0_0000_03f0, 0x10, 100, [0x10, 0x10, 0x10]),
];

/// The log of these ranges. They start `offset` bytes past a multiple of 16.
fn ranges(alloc: Global, offset: u64) -> Result<String, AllocError> {
    let mut log = String::new(alloc);
    for (start, distance, many, sizes) in &RANGES {
        add(
            &mut log,
            start.wrapping_add(offset),
            *distance,
            *many,
            sizes,
        )?;
    }
    Ok(log)
}

/// The blocks that a word leads to, by the rule itself: the words from a block's start to its end lead to it.
fn led_to(blocks: &[Block], word: u64) -> Hits {
    let mut hits = Hits::Zero;
    for (number, block) in blocks.iter().enumerate() {
        if block.start <= word && word - block.start <= block.size {
            hits = match hits {
                Hits::One(first) => Hits::Two(first, number),
                _ => Hits::One(number),
            };
        }
    }
    hits
}

/// Checks both lookups for a word.
fn check_word(rt: &impl Abort, live: &Live, sorted: &Sorted, paged: &Paged, word: u64) {
    let hits = led_to(live.blocks(), word);
    same_in(rt, &(word, "sorted"), sorted.hits(word), hits);
    same_in(rt, &(word, "by rows or pages"), paged.hits(word), hits);
}

#[test]
fn lookups_agree_around_starts_and_ends(rt: HostRuntime) -> Result<(), Fail> {
    let alloc = rt.alloc();
    for offset in [0, 8, 1] {
        let live = lives(alloc, ranges(alloc, offset)?.as_str())?;
        same(&rt, live.blocks().len(), 400);
        let sorted = Sorted::new(&live, Reading::interior());
        let paged = Paged::new(alloc, &live, Reading::interior())?;
        for block in live.blocks() {
            let start = block.start;
            let end = start.wrapping_add(block.size);
            for word in [start, end] {
                check_word(&rt, &live, &sorted, &paged, word);
                check_word(&rt, &live, &sorted, &paged, word.wrapping_add(1));
                check_word(&rt, &live, &sorted, &paged, word.wrapping_sub(1));
                check_word(&rt, &live, &sorted, &paged, word.wrapping_add(0x400));
                check_word(&rt, &live, &sorted, &paged, word.wrapping_sub(0x400));
            }
        }
    }
    Ok(())
}

#[test]
fn one_start_in_many_is_no_multiple_of_16(rt: HostRuntime) -> Result<(), Fail> {
    let alloc = rt.alloc();
    let mut log = String::new(alloc);
    add(&mut log, 0x10000, 32, 50, &SMALL)?;
    writeln!(log, "+ 0x10fff 0x1")?;
    let live = lives(alloc, log.as_str())?;
    let paged = Paged::new(alloc, &live, Reading::interior())?;
    let sorted = Sorted::new(&live, Reading::interior());
    for word in 0xfff0..=0x11010 {
        check_word(&rt, &live, &sorted, &paged, word);
    }
    Ok(())
}

/// Blocks that are neighbors, in one row, at the start of a row and after rows without a start. Each end of a block is a start, or no
/// block's start.
const NEIGHBORS: &str =
    "+ 0x10000 0x10\n+ 0x10010 0x8\n+ 0x10400 0x1000\n+ 0x11400 0\n+ 0x11410 0x3f0\n+ 0x11800 0x10\n+ 0x20000 0x8\n";

/// Words at starts and near them, and what they lead to by the interior reading.
static BY_INTERIOR: [(u64, Hits); 11] = [
    (0x10000, Hits::One(0)),
    (0x10010, Hits::Two(0, 1)),
    (0x10018, Hits::One(1)),
    (0x10400, Hits::One(2)),
    (0x11400, Hits::Two(2, 3)),
    (0x11410, Hits::One(4)),
    (0x11800, Hits::Two(4, 5)),
    (0x11810, Hits::One(5)),
    (0x20000, Hits::One(6)),
    (0x20008, Hits::One(6)),
    (0x20010, Hits::Zero),
];

/// The same by starts alone.
static BY_STARTS: [(u64, Hits); 11] = [
    (0x10000, Hits::One(0)),
    (0x10010, Hits::One(1)),
    (0x10018, Hits::Zero),
    (0x10400, Hits::One(2)),
    (0x11400, Hits::One(3)),
    (0x11410, Hits::One(4)),
    (0x11800, Hits::One(5)),
    (0x11810, Hits::Zero),
    (0x20000, Hits::One(6)),
    (0x20008, Hits::Zero),
    (0x20010, Hits::Zero),
];

/// The same by displacements of 16.
static BY_SIXTEEN: [(u64, Hits); 11] = [
    (0x10000, Hits::One(0)),
    (0x10010, Hits::Two(0, 1)),
    (0x10018, Hits::Zero),
    (0x10400, Hits::One(2)),
    (0x11400, Hits::One(3)),
    (0x11410, Hits::One(4)),
    (0x11800, Hits::One(5)),
    (0x11810, Hits::One(5)),
    (0x20000, Hits::One(6)),
    (0x20008, Hits::Zero),
    (0x20010, Hits::Zero),
];

#[test]
fn starts_where_a_block_ends_and_where_none_does(rt: HostRuntime) -> Result<(), Fail> {
    let (Ok(starts), Ok(sixteen)) = (Reading::displaced(&[]), Reading::displaced(&[16])) else {
        return Ok(assert!(rt; false, "the lists are readings"));
    };
    check(
        &rt,
        rt.alloc(),
        NEIGHBORS,
        Reading::interior(),
        &BY_INTERIOR,
    )?;
    check(&rt, rt.alloc(), NEIGHBORS, starts, &BY_STARTS)?;
    check(&rt, rt.alloc(), NEIGHBORS, sixteen, &BY_SIXTEEN)
}

/// Blocks at both ends of the address space.
const AT_THE_ENDS: &str =
    "+ 0x10 0x3f0\n+ 0x400 0\n+ 0x10100 0x1000000000000000\n+ 0xfffffffffffffff0 0xf\n";

static FIRST_AND_LAST: [(u64, Hits); 14] = [
    (0, Hits::Zero),
    (0xf, Hits::Zero),
    (0x10, Hits::One(0)),
    (0x3ff, Hits::One(0)),
    (0x400, Hits::Two(0, 1)),
    (0x401, Hits::Zero),
    (0x100ff, Hits::Zero),
    (0x10100, Hits::One(2)),
    (0x0800_0000_0000_0000, Hits::One(2)),
    (0x1000_0000_0001_0100, Hits::One(2)),
    (0x1000_0000_0001_0101, Hits::Zero),
    (0xffff_ffff_ffff_ffef, Hits::Zero),
    (0xffff_ffff_ffff_fff0, Hits::One(3)),
    (u64::MAX, Hits::One(3)),
];

#[test]
fn the_first_and_the_last_addresses(rt: HostRuntime) -> Result<(), Fail> {
    check(
        &rt,
        rt.alloc(),
        AT_THE_ENDS,
        Reading::interior(),
        &FIRST_AND_LAST,
    )
}

/// Checks 3,000 blocks of 0, 8 and 16 bytes, the distance apart: a word to each start, and one before it.
fn check_thousands(rt: &impl Abort, alloc: Global, start: u64, distance: u64) -> Result<(), Fail> {
    let mut log = String::new(alloc);
    add(&mut log, start, distance, 3000, &SMALL)?;
    let live = lives(alloc, log.as_str())?;
    let paged = Paged::new(alloc, &live, Reading::interior())?;
    for i in 0..3000usize {
        let word = distance.wrapping_mul(i as u64).wrapping_add(start);
        same_in(rt, &i, paged.hits(word), Hits::One(i));
        same_in(rt, &i, paged.hits(word.wrapping_sub(1)), Hits::Zero);
    }
    Ok(())
}

/// Over a thousand runs of rows and over a thousand rows of one run, and as many pages.
#[test]
fn thousands_of_rows_and_pages(rt: HostRuntime) -> Result<(), Fail> {
    let alloc = rt.alloc();
    check_thousands(&rt, alloc, 0x10000, 0x410)?;
    check_thousands(&rt, alloc, 0x10000, 0x2_0000)?;
    check_thousands(&rt, alloc, 0x10008, 0x410)?;
    check_thousands(&rt, alloc, 0x10008, 0x2_0000)
}
