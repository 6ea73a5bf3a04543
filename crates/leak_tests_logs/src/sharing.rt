//! The lines of a log are read by one worker or side by side by several. What is read is the same.

use crate::comparisons::{same, same_in};
use crate::numbers::listed;
use leak_blocks::{Replayed, SmallSpans};
use leak_mtrace::LogError;
use leak_replaying::{LogByTexts, replay_reading};
use leak_streams::ReadFault;
use leak_team::Team;
use leak_tests_inputs::fakes::Steps;
use std::alloc::{AllocGlobal, Global};
use std::process::Abort;
use std::test::Fail;
use std::thread::Threads;

/// How many workers read what one reads.
const WORKERS: [u32; 4] = [2, 3, 4, 64];

/// How many rounds the log has, each of six lines and some 200 bytes.
const ROUNDS: usize = 8_000;

/// How many places allocate.
const CALLERS: usize = 500;

/// The rounds: a block that stays, one that is given back a round later, one that moves, and a remark. The last line is torn.
fn rounds(alloc: Global) -> Result<Vec<u8>, Fail> {
    let mut log = String::new(alloc);
    for round in 0..ROUNDS {
        let caller = round % CALLERS;
        let start = 0x10_0000 + 256 * round;
        let last = start - 192;
        writeln!(log, "@ ./a.out:[0x{caller:x}] + 0x{start:x} 0x20")?;
        writeln!(log, "@ ./a.out:(g+0x1)[0x40] + 0x{:x} 0x18", start + 64)?;
        writeln!(log, "@ ./a.out:(f+0x{caller:x})[0x50] - 0x{last:x}")?;
        writeln!(log, "@ ./b.out:[0x{caller:x}] < 0x{start:x}")?;
        writeln!(log, "@ ./b.out:[0x{caller:x}] > 0x{:x} 0x28", start + 128)?;
        writeln!(log, "= round {round}")?;
    }
    log.push_str("@ ./a.out:[0x1")?;
    Ok(log.into_bytes())
}

/// The log with a line more, after the line that has this byte, or at the end.
fn with_line(alloc: Global, log: &[u8], at: usize, line: &[u8]) -> Result<Vec<u8>, Fail> {
    let (front, back) = log.split_at(at.min(log.len()));
    let rest = match back.iter().position(|byte| *byte == b'\n') {
        Some(len) => len + 1,
        None => back.len(),
    };
    let (ending, behind) = back.split_at(rest);
    let mut changed = Vec::from_slice(alloc, front)?;
    changed.extend_from_slice(ending)?;
    changed.extend_from_slice(line)?;
    changed.push(b'\n')?;
    changed.extend_from_slice(behind)?;
    Ok(changed)
}

/// Reads the log by so many workers, so many bytes at a time. It is said to have `size` bytes.
fn replay<T: AllocGlobal + Threads + Sync>(
    rt: &T,
    workers: u32,
    log: &[u8],
    step: usize,
    size: u64,
) -> Result<LogByTexts, ReadFault> {
    let team = Team {
        rt,
        alloc: rt.alloc(),
        workers,
    };
    replay_reading(
        &team,
        &mut Steps::of(log, step),
        log.len() as u64,
        size,
        true,
    )
}

/// Ends the test if the two differ.
fn same_read(
    rt: &impl Abort,
    workers: u32,
    found: &(Replayed, SmallSpans),
    wanted: &(Replayed, SmallSpans),
) {
    let (one, several) = (&wanted.0, &found.0);
    same_in(rt, &workers, several.live.blocks(), one.live.blocks());
    same_in(rt, &workers, several.live.unknown(), one.live.unknown());
    same_in(rt, &workers, several.live.displaced(), one.live.displaced());
    same_in(rt, &workers, several.torn, one.torn);
    same_in(rt, &workers, several.whole_len, one.whole_len);
    same_in(rt, &workers, found.1.ranges(), wanted.1.ranges());
}

/// Ends the test if several workers read of the log what one does not.
fn same_by_all<T: AllocGlobal + Threads + Sync + Abort>(
    rt: &T,
    log: &[u8],
    step: usize,
    size: u64,
) -> Result<(), Fail> {
    let LogByTexts { read: one, texts } = replay(rt, 1, log, step, size)?;
    let (bytes, places) = (texts.bytes, texts.places);
    let numbers = listed(rt.alloc(), &texts.numbers)?;
    for workers in WORKERS {
        let LogByTexts { read, texts } = replay(rt, workers, log, step, size)?;
        match (&read, &one) {
            (Ok(found), Ok(wanted)) => same_read(rt, workers, found, wanted),
            (Err(found), Err(wanted)) => same_in(rt, &workers, *found, *wanted),
            _ => same_in(rt, &workers, read.is_ok(), one.is_ok()),
        }
        same_in(rt, &workers, texts.bytes.as_slice(), bytes.as_slice());
        same_in(rt, &workers, texts.places.as_slice(), places.as_slice());
        let found = listed(rt.alloc(), &texts.numbers)?;
        same_in(rt, &workers, found.as_slice(), numbers.as_slice());
    }
    Ok(())
}

#[test]
fn a_long_log_is_read_the_same_by_any_number(rt: HostRuntime) -> Result<(), Fail> {
    let log = rounds(rt.alloc())?;
    let size = log.len() as u64;
    same(
        &rt,
        replay(&rt, 4, log.as_slice(), usize::MAX, size)?
            .read
            .is_ok(),
        true,
    );
    same_by_all(&rt, log.as_slice(), usize::MAX, size)?;
    same_by_all(&rt, log.as_slice(), 700_001, size)
}

#[test]
fn a_log_of_no_known_size_is_read_the_same_by_any_number(rt: HostRuntime) -> Result<(), Fail> {
    // Nothing is guessed, and arenas fill.
    let log = rounds(rt.alloc())?;
    same_by_all(&rt, log.as_slice(), usize::MAX, 0)?;
    same_by_all(&rt, log.as_slice(), usize::MAX, 200_000)
}

#[test]
fn the_first_fault_is_found_by_any_number(rt: HostRuntime) -> Result<(), Fail> {
    let log = rounds(rt.alloc())?;
    let end = log.len();
    for at in [100_000, 600_000, 1_000_000, end] {
        let bad = with_line(rt.alloc(), log.as_slice(), at, b"no line")?;
        let read = replay(&rt, 1, bad.as_slice(), usize::MAX, end as u64)?.read;
        same_in(&rt, &at, read.is_err(), true);
        same_by_all(&rt, bad.as_slice(), usize::MAX, end as u64)?;
    }
    Ok(())
}

#[test]
fn the_first_of_two_faults_is_found_by_any_number(rt: HostRuntime) -> Result<(), Fail> {
    let log = rounds(rt.alloc())?;
    let size = log.len() as u64;
    let first = b"+ 0xffffffffffffffff 0x2".as_slice();
    let later = with_line(rt.alloc(), log.as_slice(), 1_000_000, b"no line")?;
    let both = with_line(rt.alloc(), later.as_slice(), 300_000, first)?;
    let read = replay(&rt, 4, both.as_slice(), usize::MAX, size)?.read;
    same(&rt, matches!(read, Err(LogError::Extent(_))), true);
    same_by_all(&rt, both.as_slice(), usize::MAX, size)
}

#[test]
fn a_line_longer_than_a_share_is_read_the_same_by_any_number(rt: HostRuntime) -> Result<(), Fail> {
    let log = rounds(rt.alloc())?;
    let size = log.len() as u64;
    let remark = vec![in rt.alloc(); b'='; 700_000]?;
    for at in [0, 600_000] {
        let long = with_line(rt.alloc(), log.as_slice(), at, remark.as_slice())?;
        same_by_all(&rt, long.as_slice(), usize::MAX, size)?;
    }
    Ok(())
}
