//! Blocks that a word leads to.

use crate::comparisons::{same, same_in};
use crate::samples::lives;
use leak_index::{Hits, Lookup, Paged, Reading, ReadingError, Sorted};
use std::alloc::{AllocError, Global};
use std::process::Abort;
use std::test::Fail;

/// What the lookup answers, asked through its trait.
fn ask<L: Lookup>(lookup: &L, word: u64) -> Hits {
    lookup.hits(word)
}

/// Checks what both lookups answer by the reading.
pub fn check(
    rt: &impl Abort,
    alloc: Global,
    log: &str,
    reading: Reading,
    cases: &[(u64, Hits)],
) -> Result<(), Fail> {
    let live = lives(alloc, log)?;
    let sorted = Sorted::new(&live, reading);
    let paged = Paged::new(alloc, &live, reading)?;
    for (word, hits) in cases {
        same_in(rt, &(word, "sorted"), ask(&sorted, *word), *hits);
        same_in(rt, &(word, "by rows or pages"), ask(&paged, *word), *hits);
    }
    Ok(())
}

/// Four blocks, of which two begin at the end of another, and one has no byte.
const FOUR: &str = "+ 0x100 0x10\n+ 0x110 0\n+ 0x111 0xf\n+ 0x130 0x10\n";

static BY_INTERIOR: [(u64, Hits); 11] = [
    (0, Hits::Zero),
    (0xff, Hits::Zero),
    (0x100, Hits::One(0)),
    (0x108, Hits::One(0)),
    (0x110, Hits::Two(0, 1)),
    (0x111, Hits::One(2)),
    (0x119, Hits::One(2)),
    (0x120, Hits::One(2)),
    (0x121, Hits::Zero),
    (0x140, Hits::One(3)),
    (u64::MAX, Hits::Zero),
];

/// The same words by displacements of 8.
static BY_EIGHT: [(u64, Hits); 11] = [
    (0, Hits::Zero),
    (0xff, Hits::Zero),
    (0x100, Hits::One(0)),
    (0x108, Hits::One(0)),
    (0x110, Hits::One(1)),
    (0x111, Hits::One(2)),
    (0x119, Hits::One(2)),
    (0x120, Hits::Zero),
    (0x121, Hits::Zero),
    (0x140, Hits::Zero),
    (u64::MAX, Hits::Zero),
];

#[test]
fn words_by_both_readings(rt: HostRuntime) -> Result<(), Fail> {
    let Ok(by_eight) = Reading::displaced(&[8]) else {
        return Ok(assert!(rt; false, "one value is a reading"));
    };
    check(&rt, rt.alloc(), FOUR, Reading::interior(), &BY_INTERIOR)?;
    check(&rt, rt.alloc(), FOUR, by_eight, &BY_EIGHT)
}

#[test]
fn a_block_of_the_page_before_ends_where_a_page_begins(rt: HostRuntime) -> Result<(), Fail> {
    check(
        &rt,
        rt.alloc(),
        "+ 0x10ff0 0x10\n+ 0x11000 0x10\n",
        Reading::interior(),
        &[
            (0x10fef, Hits::Zero),
            (0x10fff, Hits::One(0)),
            (0x11000, Hits::Two(0, 1)),
            (0x11001, Hits::One(1)),
            (0x11010, Hits::One(1)),
            (0x11011, Hits::Zero),
        ],
    )
}

#[test]
fn a_block_goes_over_pages_in_which_none_starts(rt: HostRuntime) -> Result<(), Fail> {
    check(
        &rt,
        rt.alloc(),
        "+ 0x10100 0x3100\n+ 0x13210 0x10\n+ 0x15ff8 0x8\n",
        Reading::interior(),
        &[
            (0x11000, Hits::One(0)),
            (0x12ff8, Hits::One(0)),
            (0x13000, Hits::One(0)),
            (0x13200, Hits::One(0)),
            (0x13201, Hits::Zero),
            (0x13220, Hits::One(1)),
            (0x14000, Hits::Zero),
            (0x15000, Hits::Zero),
            (0x16000, Hits::One(2)),
        ],
    )
}

#[test]
fn a_huge_block_is_led_to_from_its_start_to_its_end(rt: HostRuntime) -> Result<(), Fail> {
    check(
        &rt,
        rt.alloc(),
        "+ 0x10100 0x1000000000000000\n",
        Reading::interior(),
        &[
            (0x100f, Hits::Zero),
            (0x100ff, Hits::Zero),
            (0x10100, Hits::One(0)),
            (0x1000_0000_0001_0100, Hits::One(0)),
            (0x1000_0000_0001_0101, Hits::Zero),
        ],
    )
}

/// The log of a hundred blocks of 16 bytes in a row, with as many bytes between them.
fn chain(alloc: Global) -> Result<String, AllocError> {
    let mut log = String::new(alloc);
    for i in 0..100u64 {
        writeln!(log, "+ 0x{:x} 0x10", 0x10200 + 0x20 * i)?;
    }
    Ok(log)
}

/// The log of a block of 400 bytes, 50 blocks of 16 bytes and 50 of 8 bytes.
fn star(alloc: Global) -> Result<String, AllocError> {
    let mut log = String::new(alloc);
    writeln!(log, "+ 0x10200 0x190")?;
    for i in 0..50u64 {
        writeln!(log, "+ 0x{:x} 0x10", 0x10400 + 0x20 * i)?;
        writeln!(log, "+ 0x{:x} 0x8", 0x10b00 + 0x10 * i)?;
    }
    Ok(log)
}

#[test]
fn both_lookups_agree(rt: HostRuntime) -> Result<(), Fail> {
    let alloc = rt.alloc();
    let Ok(by_eight) = Reading::displaced(&[8]) else {
        return Ok(assert!(rt; false, "one value is a reading"));
    };
    for log in [chain(alloc)?, star(alloc)?] {
        let live = lives(alloc, log.as_str())?;
        for reading in [Reading::interior(), by_eight] {
            let sorted = Sorted::new(&live, reading);
            let paged = Paged::new(alloc, &live, reading)?;
            for word in 0x10000..=0x11000 {
                same_in(&rt, &word, paged.hits(word), sorted.hits(word));
            }
        }
    }
    Ok(())
}

#[test]
fn a_log_without_blocks_leads_nowhere(rt: HostRuntime) -> Result<(), Fail> {
    let alloc = rt.alloc();
    let live = lives(alloc, "")?;
    let sorted = Sorted::new(&live, Reading::interior());
    let paged = Paged::new(alloc, &live, Reading::interior())?;
    for word in [0, 0x10100, u64::MAX] {
        same_in(&rt, &(word, "sorted"), sorted.hits(word), Hits::Zero);
        same_in(&rt, &(word, "by pages"), paged.hits(word), Hits::Zero);
    }
    Ok(())
}

#[test]
fn a_displaced_reading_takes_the_start_and_the_listed_distances(
    rt: HostRuntime,
) -> Result<(), Fail> {
    let alloc = rt.alloc();
    let live = lives(alloc, "@ ./a.out:[0x401136] + 0x10100 0x20\n")?;
    for values in [[8, 8].as_slice(), [8].as_slice(), [65535, 0, 8].as_slice()] {
        let Ok(reading) = Reading::displaced(values) else {
            return Ok(assert!(rt; false, "the values are a reading"));
        };
        let lookup = Sorted::new(&live, reading);
        let cases = [
            (0x10108, Hits::One(0)),
            (0x10100, Hits::One(0)),
            (0x10110, Hits::Zero),
            (0x10120, Hits::Zero),
        ];
        for (word, hits) in cases {
            same_in(&rt, &word, lookup.hits(word), hits);
        }
    }
    Ok(())
}

#[test]
fn refused_displacements(rt: HostRuntime) -> Result<(), Fail> {
    let alloc = rt.alloc();
    let mut sixteen = [8; 16];
    sixteen[15] = 65535;
    assert!(rt; Reading::displaced(&sixteen).is_ok());
    assert!(rt; Reading::displaced(&[]).is_ok());
    let cases = [
        (
            [8; 17].as_slice(),
            ReadingError::TooMany,
            "more than 16 values",
        ),
        (
            [65536; 17].as_slice(),
            ReadingError::TooMany,
            "more than 16 values",
        ),
        (
            [8, 65536].as_slice(),
            ReadingError::TooLarge(1),
            "item 1 is over 65535",
        ),
        (
            [u64::MAX, 65536].as_slice(),
            ReadingError::TooLarge(0),
            "item 0 is over 65535",
        ),
    ];
    for (values, reason, text) in cases {
        let refused = Reading::displaced(values).err();
        same(&rt, refused, Some(reason));
        let printed = format!(in alloc; "{reason}")?;
        same(&rt, printed.as_str(), text);
    }
    Ok(())
}
