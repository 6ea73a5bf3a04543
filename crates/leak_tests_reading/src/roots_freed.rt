//! Root words outside freed memory.

use crate::comparisons::{same, same_in};
use crate::roots::{roots_of, unfreed_roots_of};
use std::test::Fail;

/// A log, how many places of the sample core are freed, and the ranges of the other places.
type Case<'a> = (&'a str, u64, &'a [(u64, u64)]);

#[test]
fn freed_places_are_no_roots(rt: HostRuntime) -> Result<(), Fail> {
    let cases: [Case; 5] = [
        ("", 0, &[(0x10000, 0x11000)]),
        (
            "+ 0x10100 0x20\n- 0x10100\n",
            4,
            &[(0x10000, 0x10100), (0x10120, 0x11000)],
        ),
        // a place that is half outside the span stays
        (
            "+ 0x10100 0xc\n- 0x10100\n",
            1,
            &[(0x10000, 0x10100), (0x10108, 0x11000)],
        ),
        // two spans hold the bytes of one place
        (
            "+ 0x10100 0x4\n+ 0x10104 0x4\n- 0x10100\n- 0x10104\n",
            1,
            &[(0x10000, 0x10100), (0x10108, 0x11000)],
        ),
        // what lies in a live block is no place, and is not counted
        (
            "+ 0x10100 0x20\n+ 0x10110 0x10\n",
            2,
            &[(0x10000, 0x10100), (0x10120, 0x11000)],
        ),
    ];
    for (log, freed, memory) in cases {
        let roots = unfreed_roots_of(rt.alloc(), log)?;
        same_in(&rt, &log, roots.freed(), freed);
        same_in(&rt, &log, roots.memory(), memory);
    }
    Ok(())
}

#[test]
fn freed_places_of_large_and_small_spans(rt: HostRuntime) -> Result<(), Fail> {
    let cases: [Case; 4] = [
        // spans may pass the ends of the segment
        (
            "+ 0xff00 0x108\n- 0xff00\n+ 0x10ff4 0x100\n- 0x10ff4\n",
            2,
            &[(0x10008, 0x10ff8)],
        ),
        ("+ 0x10100 0x1ffff\n- 0x10100\n", 480, &[(0x10000, 0x10100)]),
        ("+ 0x10100 0x20000\n- 0x10100\n", 0, &[(0x10000, 0x11000)]),
        (
            "+ 0x10002 0x4\n- 0x10002\n+ 0x10010 0x7\n- 0x10010\n",
            0,
            &[(0x10000, 0x10010), (0x10010, 0x11000)],
        ),
    ];
    for (log, freed, memory) in cases {
        let roots = unfreed_roots_of(rt.alloc(), log)?;
        same_in(&rt, &log, roots.freed(), freed);
        same_in(&rt, &log, roots.memory(), memory);
    }
    Ok(())
}

#[test]
fn without_spans_nothing_is_freed(rt: HostRuntime) -> Result<(), Fail> {
    let all = roots_of(rt.alloc(), b"+ 0x10100 0x20\n- 0x10100\n")?;
    same(&rt, all.freed(), 0);
    same(&rt, all.memory(), [(0x10000, 0x11000)].as_slice());
    Ok(())
}
