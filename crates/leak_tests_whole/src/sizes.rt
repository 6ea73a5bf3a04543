//! Inputs larger than the samples: a call that has memory does not answer that it wants some.

use crate::comparisons::same;
use crate::samples::{core_of, marking_input, set};
use leak_blocks::{Live, replay};
use leak_index::{Hits, Lookup, Paged, Reading};
use leak_marks::{Claims, Marks};
use leak_mtrace::Log;
use leak_roots::Piece;
use std::alloc::Global;
use std::test::Fail;

/// How many bytes the segment of the wide core has.
const WIDE: u64 = 0x10000;

/// The sample core with a segment of 65,536 bytes.
fn wide_core(alloc: Global) -> Result<Vec<u8>, Fail> {
    let mut core = core_of(alloc, &[])?;
    set(&mut core, 152, &WIDE.to_le_bytes());
    set(&mut core, 160, &WIDE.to_le_bytes());
    for _ in 8192..4096 + WIDE {
        core.push(0)?;
    }
    Ok(core)
}

/// A log of `count` blocks of one size, one after another at such a distance.
fn row_of_blocks(alloc: Global, count: u64, size: u64, step: u64) -> Result<String, Fail> {
    let mut log = String::new(alloc);
    for i in 0..count {
        let start = 0x10000u64.wrapping_add(step.wrapping_mul(i));
        writeln!(log, "+ 0x{start:x} 0x{size:x}")?;
    }
    Ok(log)
}

fn live_of(alloc: Global, log: &str) -> Result<Live, Fail> {
    let log = Log::read(alloc, log.as_bytes())?;
    Ok(replay(alloc, &log)?)
}

#[test]
fn four_thousand_ranges_of_roots_are_cut(rt: HostRuntime) -> Result<(), Fail> {
    let alloc = rt.alloc();
    let core = wide_core(alloc)?;
    let log = row_of_blocks(alloc, 4096, 8, 16)?;
    let roots = marking_input(alloc, core.as_slice(), log.as_str())?.roots;
    same(&rt, roots.memory().len(), 4096);
    let pieces = roots.cut(alloc, 1)?;
    same(&rt, pieces.len(), 4123);
    assert!(rt; matches!(pieces.last(), Some(Piece::Memory(0x1fff8, 0x20000))));
    Ok(())
}

#[test]
fn five_thousand_pages_are_listed(rt: HostRuntime) -> Result<(), Fail> {
    let alloc = rt.alloc();
    let live = live_of(alloc, row_of_blocks(alloc, 5000, 16, 8192)?.as_str())?;
    let lookup = Paged::new(alloc, &live, Reading::interior())?;
    for block in 0..5000usize {
        let start = 0x10000u64.wrapping_add((block as u64).wrapping_mul(8192));
        same(&rt, lookup.hits(start), Hits::One(block));
        same(&rt, lookup.hits(start.wrapping_add(17)), Hits::Zero);
    }
    Ok(())
}

#[test]
fn claims_of_up_to_a_hundred_workers(rt: HostRuntime) -> Result<(), Fail> {
    for workers in 1..=100u32 {
        let mut claims = Claims::new(rt.alloc(), 1000, workers)?;
        assert!(rt; claims.attempt(workers - 1, 999));
        assert!(rt; !claims.attempt(0, 999));
        same(&rt, claims.claims(workers - 1), [999u32].as_slice());
    }
    Ok(())
}

#[test]
fn marks_of_a_hundred_million_blocks(rt: HostRuntime) -> Result<(), Fail> {
    let (marks, mut seat) = Marks::new(rt.alloc(), 100_000_000)?;
    assert!(rt; marks.claim(&mut seat, 99_999_999));
    let words = marks.close(rt.alloc(), seat)?;
    same(&rt, words.len(), 1_562_500);
    same(&rt, words.last(), Some(&(1 << 63)));
    Ok(())
}
