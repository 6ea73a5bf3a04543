//! Readers and writers that are interrupted, fail or end between their bytes, and would then go on.

use crate::comparisons::{same, same_in};
use leak_find::{ReadFault, read_all};
use leak_streams::{WriteFault, write};
use leak_tests_inputs::examples::NOTHING;
use leak_tests_inputs::fakes::{Giver, Source, Taker, Turn};
use std::test::Fail;

/// Half of the interruptions that end a reading or a writing, and more.
const OVER_HALF: u64 = 600_000;

#[test]
fn a_read_that_fails_is_not_tried_again(rt: HostRuntime) -> Result<(), Fail> {
    let turns = [Turn::Bytes(2), Turn::Fails];
    let mut source = Giver::of(rt.alloc(), b"abcde", &turns)?;
    let result = read_all(rt.alloc(), &mut source, 5);
    same(&rt, result.err(), Some(ReadFault::Device));
    same(&rt, (source.left(), source.reads), (3, 2));
    Ok(())
}

#[test]
fn a_read_without_bytes_is_the_end(rt: HostRuntime) -> Result<(), Fail> {
    let turns = [Turn::Bytes(2), Turn::Bytes(0)];
    let mut source = Giver::of(rt.alloc(), b"abcde", &turns)?;
    let read = read_all(rt.alloc(), &mut source, 5)?;
    same(&rt, read.as_slice(), b"ab".as_slice());
    same(&rt, (source.left(), source.reads), (3, 2));
    Ok(())
}

#[test]
fn interruptions_between_reads_lose_no_byte(rt: HostRuntime) -> Result<(), Fail> {
    let turns = [
        Turn::Interrupted(1),
        Turn::Bytes(2),
        Turn::Interrupted(999_997),
        Turn::Bytes(1),
        Turn::Interrupted(1),
    ];
    let mut source = Giver::of(rt.alloc(), b"abcde", &turns)?;
    let read = read_all(rt.alloc(), &mut source, 5)?;
    same(&rt, read.as_slice(), b"abcde".as_slice());
    // Four reads were not interrupted, and the last of them found the end.
    same(&rt, source.reads, 1_000_003);
    Ok(())
}

#[test]
fn interrupted_reads_are_counted_over_the_whole_input(rt: HostRuntime) -> Result<(), Fail> {
    let turns = [
        Turn::Interrupted(OVER_HALF),
        Turn::Bytes(2),
        Turn::Interrupted(OVER_HALF),
    ];
    let mut source = Giver::of(rt.alloc(), b"abcde", &turns)?;
    let result = read_all(rt.alloc(), &mut source, 5);
    same(&rt, result.err(), Some(ReadFault::TooManyTurns));
    same(&rt, (source.left(), source.reads), (3, 1_000_001));
    Ok(())
}

#[test]
fn an_input_over_its_limit_is_too_long_at_any_pace(rt: HostRuntime) -> Result<(), Fail> {
    // Eight bytes with a limit of five: six are taken, whatever a read gives at most.
    for step in 1..8 {
        let mut source = Source::slow(rt.alloc(), b"abcdefgh", step)?;
        let result = read_all(rt.alloc(), &mut source, 5);
        same_in(&rt, &step, result.err(), Some(ReadFault::TooLong));
        same_in(&rt, &step, source.left(), 2);
    }
    let turns = [Turn::Bytes(3), Turn::Interrupted(2), Turn::Bytes(2)];
    let mut source = Giver::of(rt.alloc(), b"abcdefgh", &turns)?;
    let result = read_all(rt.alloc(), &mut source, 5);
    same(&rt, result.err(), Some(ReadFault::TooLong));
    same(&rt, (source.left(), source.reads), (2, 5));
    Ok(())
}

#[test]
fn a_write_that_fails_is_not_tried_again(rt: HostRuntime) -> Result<(), Fail> {
    let mut out = Taker::of(rt.alloc(), &[Turn::Bytes(10), Turn::Fails])?;
    let result = write(NOTHING.as_bytes(), &mut out);
    same(&rt, result, Err(WriteFault { written: 10 }));
    same(&rt, out.held.as_slice(), b"blocks 0 b".as_slice());
    same(&rt, out.writes, 2);
    Ok(())
}

#[test]
fn a_write_without_bytes_is_not_tried_again(rt: HostRuntime) -> Result<(), Fail> {
    let cases = [
        ([Turn::Bytes(0), Turn::Bytes(3)], b"".as_slice(), 1),
        ([Turn::Bytes(4), Turn::Bytes(0)], b"leak".as_slice(), 2),
    ];
    for (turns, held, writes) in cases {
        let mut out = Taker::of(rt.alloc(), &turns)?;
        let result = write(b"leaked", &mut out);
        let fault = WriteFault {
            written: held.len() as u64,
        };
        same(&rt, result, Err(fault));
        same(&rt, out.held.as_slice(), held);
        same(&rt, out.writes, writes);
    }
    Ok(())
}

#[test]
fn interruptions_between_writes_write_nothing_twice(rt: HostRuntime) -> Result<(), Fail> {
    let turns = [
        Turn::Interrupted(1),
        Turn::Bytes(10),
        Turn::Interrupted(999_997),
        Turn::Bytes(7),
        Turn::Interrupted(1),
    ];
    let mut out = Taker::of(rt.alloc(), &turns)?;
    write(NOTHING.as_bytes(), &mut out)?;
    same(&rt, out.held.as_slice(), NOTHING.as_bytes());
    same(&rt, out.writes, 1_000_002);
    Ok(())
}

#[test]
fn interrupted_writes_are_counted_over_the_whole_text(rt: HostRuntime) -> Result<(), Fail> {
    let turns = [
        Turn::Interrupted(OVER_HALF),
        Turn::Bytes(4),
        Turn::Interrupted(OVER_HALF),
    ];
    let mut out = Taker::of(rt.alloc(), &turns)?;
    let result = write(b"leaked", &mut out);
    same(&rt, result, Err(WriteFault { written: 4 }));
    same(&rt, out.held.as_slice(), b"leak".as_slice());
    same(&rt, out.writes, 1_000_001);
    Ok(())
}

#[test]
fn a_writer_that_is_always_interrupted_is_given_up(rt: HostRuntime) -> Result<(), Fail> {
    let mut out = Taker::of(rt.alloc(), &[Turn::Interrupted(u64::MAX)])?;
    let result = write(b"leaked", &mut out);
    same(&rt, result, Err(WriteFault { written: 0 }));
    same(&rt, out.writes, 1_000_000);
    Ok(())
}

#[test]
fn a_long_text_is_written_whole(rt: HostRuntime) -> Result<(), Fail> {
    let mut long = Vec::new(rt.alloc());
    for line in 0..60_000u32 {
        long.extend_from_slice(&line.to_le_bytes())?;
    }
    let turns = [Turn::Bytes(1), Turn::Interrupted(3), Turn::Bytes(65_536)];
    let mut out = Taker::of(rt.alloc(), &turns)?;
    write(long.as_slice(), &mut out)?;
    assert!(rt; out.held == long);
    same(&rt, out.writes, 6);
    Ok(())
}
