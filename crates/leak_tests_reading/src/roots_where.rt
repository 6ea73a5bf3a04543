//! Root words in the ranges that a test keeps.

ghost use Rattle.std.specs.Prelude.{nat_lt};

use crate::comparisons::{same, same_in};
use leak_blocks::{Live, replay};
use leak_elf::{Image, core_k};
use leak_mtrace::Log;
use leak_notes::Threads;
use leak_roots::{AllRanges, Exclusions, RangeTest, Roots, Skip};
use std::alloc::Global;
use std::test::Fail;

/// Keeps the ranges that begin before an address.
#[derive(Clone, Copy)]
struct BeginsBefore(u64);

impl RangeTest for BeginsBefore {
    ghost keeps = { λ test range. nat_lt range.0 test.0 };

    fn keeps(&self, range: (u64, u64)) -> bool {
        range.0 < self.0
    }
}

/// The root words of the sample core outside freed memory, in the ranges that the test keeps.
fn roots_where<T: RangeTest>(alloc: Global, log: &[u8], test: &T) -> Result<Roots, Fail> {
    let core = core_k(alloc, &[])?;
    let image = Image::read(alloc, core.as_slice())?;
    let threads = Threads::read(alloc, &image)?;
    let log = Log::read(alloc, log)?;
    let live: Live = replay(alloc, &log)?;
    let skip = Skip {
        freed: true,
        ..Skip::usual()
    };
    let small = skip.spans(alloc, &log)?;
    let excluded = Exclusions {
        small: &small,
        unwritable: true,
    };
    let roots = Roots::find_where(alloc, &image, &threads, &live, &excluded, test)?;
    Ok(roots)
}

const LOG: &[u8] = b"+ 0x10100 0x20\n+ 0x10200 0x20\n+ 0x10300 0x20\n- 0x10300\n";

const RANGES: [(u64, u64); 4] = [
    (0x10000, 0x10100),
    (0x10120, 0x10200),
    (0x10220, 0x10300),
    (0x10320, 0x11000),
];

#[test]
fn only_ranges_that_the_test_keeps_are_found(rt: HostRuntime) -> Result<(), Fail> {
    for (end, kept) in [
        (0, 0),
        (0x10000, 0),
        (0x10001, 1),
        (0x10220, 2),
        (0x10221, 3),
        (0x11000, 4),
    ] {
        let roots = roots_where(rt.alloc(), LOG, &BeginsBefore(end))?;
        same_in(&rt, &end, roots.memory(), &RANGES[..kept]);
        same_in(&rt, &end, roots.registers().len(), 27);
        same_in(&rt, &end, roots.freed(), 4);
    }
    Ok(())
}

#[test]
fn a_test_that_keeps_all_ranges_loses_none(rt: HostRuntime) -> Result<(), Fail> {
    let roots = roots_where(rt.alloc(), LOG, &AllRanges)?;
    same(&rt, roots.memory(), RANGES.as_slice());
    same(&rt, roots.freed(), 4);
    same(&rt, roots.dead(), 0);
    same(&rt, roots.skips_links(), false);
    Ok(())
}
