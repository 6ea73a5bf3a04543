//! A log is replayed while it is read.

use crate::comparisons::{same, same_in};
use crate::numbers::listed;
use leak_blocks::{Block, replay_bytes, replay_with_spans};
use leak_mtrace::LogError;
use leak_replaying::{LogByTexts, Numbers, replay_reading};
use leak_streams::ReadFault;
use leak_team::Team;
use leak_tests_inputs::examples::ONE_BLOCK;
use leak_tests_inputs::fakes::{Source, Steps};
use std::alloc::{AllocGlobal, Global};
use std::test::Fail;
use std::thread::Threads;

/// How many bytes a read gives at most.
const STEPS: [usize; 5] = [1, 2, 3, 7, usize::MAX];

/// Seven complete lines, and one that is torn.
const LINES: &[u8] = b"@ ./a.out:[0x401136] + 0x10100 0x20\n\
                       @ ./b.out:[0x401140] + 0x10200 0x8\n\
                       = a remark\n\
                       @ ./a.out:[0x401136] + 0x10300 0x10\n\
                       @ ./c.out:[0x401150] - 0x10200\n\
                       - 0x10900\n\
                       + 0x10400 0x18\n\
                       @ ./a.out:[0x4";

/// Their live blocks. The fourth line begins at byte 82.
const LIVE: [Block; 3] = [
    Block {
        start: 0x10100,
        size: 32,
        line: 1,
        caller: (2, 20),
    },
    Block {
        start: 0x10300,
        size: 16,
        line: 4,
        caller: (84, 102),
    },
    Block {
        start: 0x10400,
        size: 24,
        line: 7,
        caller: (0, 0),
    },
];

/// The line of the one block without its line feed.
const TORN: &[u8] = b"@ ./a.out:[0x401136] + 0x10100 0x20";

/// The caller alone.
fn one_worker<T: AllocGlobal + Threads + Sync>(rt: &T) -> Team<'_, T> {
    Team {
        rt,
        alloc: rt.alloc(),
        workers: 1,
    }
}

/// Reads a log, so many bytes at a time.
fn replay<T: AllocGlobal + Threads + Sync>(
    rt: &T,
    log: &[u8],
    step: usize,
    spans: bool,
) -> Result<LogByTexts, ReadFault> {
    let size = log.len() as u64;
    replay_reading(
        &one_worker(rt),
        &mut Steps::of(log, step),
        size,
        size,
        spans,
    )
}

#[test]
fn reads_of_any_length_give_the_blocks_and_their_texts(rt: HostRuntime) -> Result<(), Fail> {
    for step in STEPS {
        let LogByTexts { read, texts } = replay(&rt, LINES, step, false)?;
        let (replayed, spans) = read?;
        same_in(&rt, &step, replayed.live.blocks(), LIVE.as_slice());
        same_in(&rt, &step, replayed.live.unknown(), 1);
        same_in(&rt, &step, (replayed.torn, replayed.whole_len), (1, 174));
        same_in(&rt, &step, spans.ranges().len(), 0);
        let wanted = b"./a.out:[0x401136]./b.out:[0x401140]?".as_slice();
        same_in(&rt, &step, texts.bytes.as_slice(), wanted);
        let places = [(0, 18), (18, 36), (36, 37)];
        same_in(&rt, &step, texts.places.as_slice(), places.as_slice());
        let numbers = listed(rt.alloc(), &texts.numbers)?;
        same_in(&rt, &step, numbers.as_slice(), [0, 0, 2].as_slice());
    }
    Ok(())
}

#[test]
fn spans_are_those_of_the_whole_log(rt: HostRuntime) -> Result<(), Fail> {
    let (_replayed, wanted) = replay_with_spans(rt.alloc(), LINES)?;
    same(&rt, wanted.ranges().len(), 1);
    for step in STEPS {
        let LogByTexts { read, texts: _ } = replay(&rt, LINES, step, true)?;
        let (_replayed, spans) = read?;
        same_in(&rt, &step, spans.ranges(), wanted.ranges());
    }
    Ok(())
}

#[test]
fn a_log_with_a_fault_is_read_to_its_end(rt: HostRuntime) -> Result<(), Fail> {
    let rows: [(&[u8], LogError); 3] = [
        (b"= a\n- 0x10100\n+ 0x10\n- 0x10100\n", LogError::BadLine(3)),
        (
            b"+ 0x10100 0x20\n+ 0xffffffffffffffff 0x2\n- 0x10\n",
            LogError::Extent(2),
        ),
        (b"\xff\n", LogError::BadLine(1)),
    ];
    for (log, fault) in rows {
        let size = log.len() as u64;
        for step in STEPS {
            let mut source = Source::slow(rt.alloc(), log, step)?;
            let LogByTexts { read, texts } = replay_reading(
                &one_worker(&rt),
                &mut source,
                size,
                size,
                true,
            )?;
            same_in(&rt, &step, read.err(), Some(fault));
            same_in(&rt, &step, texts.places.len(), 0);
            same_in(&rt, &step, source.left(), 0);
        }
    }
    Ok(())
}

#[test]
fn a_log_that_is_too_long_is_told_before_its_fault(rt: HostRuntime) -> Result<(), Fail> {
    let log = b"no line\n- 0x10100\n";
    for step in STEPS {
        let mut reader = Steps::of(log, step);
        let read = replay_reading(&one_worker(&rt), &mut reader, 17, 18, false);
        same_in(&rt, &step, read.err(), Some(ReadFault::TooLong));
    }
    Ok(())
}

#[test]
fn a_log_without_a_line_has_no_block(rt: HostRuntime) -> Result<(), Fail> {
    for (log, count) in [(b"".as_slice(), 0), (TORN, 1)] {
        for step in STEPS {
            let LogByTexts { read, texts } = replay(&rt, log, step, true)?;
            let (replayed, _spans) = read?;
            same_in(&rt, &step, replayed.live.blocks().len(), 0);
            same_in(&rt, &step, (replayed.torn, replayed.whole_len), (count, 0));
            same_in(&rt, &step, texts.places.len(), 0);
        }
    }
    Ok(())
}

#[test]
fn a_line_may_be_longer_than_a_piece(rt: HostRuntime) -> Result<(), Fail> {
    let mut log = vec![in rt.alloc(); b'='; 600_000]?;
    log.push(b'\n')?;
    log.extend_from_slice(ONE_BLOCK.as_bytes())?;
    for step in [70_001, usize::MAX] {
        let LogByTexts { read, texts } = replay(&rt, log.as_slice(), step, false)?;
        let (replayed, _spans) = read?;
        let block = Block {
            line: 2,
            caller: (600_003, 600_021),
            ..LIVE[0]
        };
        same_in(&rt, &step, replayed.live.blocks(), [block].as_slice());
        let wanted = b"./a.out:[0x401136]".as_slice();
        same_in(&rt, &step, texts.bytes.as_slice(), wanted);
    }
    Ok(())
}

/// How many blocks and callers the long log has.
const BLOCKS: usize = 20_000;

const CALLERS: usize = 300;

/// A log of three pieces, in which callers take turns.
fn long_log(alloc: Global) -> Result<String, Fail> {
    let mut log = String::new(alloc);
    for number in 0..BLOCKS {
        let caller = number % CALLERS;
        let start = 0x10000 + 32 * number;
        writeln!(log, "@ ./a.out:[0x{caller:x}] + 0x{start:x} 0x20")?;
    }
    Ok(log)
}

#[test]
fn a_long_log_has_the_blocks_of_the_whole_and_each_its_text(rt: HostRuntime) -> Result<(), Fail> {
    let log = long_log(rt.alloc())?;
    let bytes = log.as_bytes();
    let wanted = replay_bytes(rt.alloc(), bytes)?;
    same(&rt, wanted.live.blocks().len(), BLOCKS);
    // Without a size nothing is guessed, and the arena is replaced.
    for (step, size) in [(usize::MAX, bytes.len() as u64), (4093, 0)] {
        let mut reader = Steps::of(bytes, step);
        let limit = bytes.len() as u64;
        let LogByTexts { read, texts } = replay_reading(
            &one_worker(&rt),
            &mut reader,
            limit,
            size,
            false,
        )?;
        let (replayed, _spans) = read?;
        same_in(&rt, &step, replayed.live.blocks(), wanted.live.blocks());
        same_in(&rt, &step, replayed.whole_len, bytes.len());
        same_in(&rt, &step, texts.places.len(), CALLERS);
        let is_many = matches!(&texts.numbers, Numbers::Many(_));
        same_in(&rt, &step, is_many, true);
        let numbers = listed(rt.alloc(), &texts.numbers)?;
        same_in(&rt, &step, numbers.len(), BLOCKS);
        for (block, number) in numbers.iter().enumerate() {
            same_in(&rt, &block, *number as usize, block % CALLERS);
        }
    }
    Ok(())
}

/// A log of 1,500 allocations at five addresses by turns, by callers of three places. The last five are live.
fn log_of_turns(alloc: Global) -> Result<String, Fail> {
    let mut log = String::new(alloc);
    for number in 0..1500usize {
        let start = 0x10000 + 64 * (number % 5);
        if number >= 5 {
            writeln!(log, "- 0x{start:x}")?;
        }
        let caller = number % 3;
        writeln!(log, "@ ./a.out:[0x{caller:x}] + 0x{start:x} 0x20")?;
    }
    Ok(log)
}

#[test]
fn a_log_whose_allocations_end_has_the_blocks_of_the_whole(rt: HostRuntime) -> Result<(), Fail> {
    let log = log_of_turns(rt.alloc())?;
    let bytes = log.as_bytes();
    let wanted = replay_bytes(rt.alloc(), bytes)?;
    // A size that is too small makes room for few allocations, and those that ended are let go.
    for step in [1021, usize::MAX] {
        let mut reader = Steps::of(bytes, step);
        let limit = bytes.len() as u64;
        let LogByTexts { read, texts } = replay_reading(
            &one_worker(&rt),
            &mut reader,
            limit,
            1,
            false,
        )?;
        let (replayed, _spans) = read?;
        same_in(&rt, &step, replayed.live.blocks(), wanted.live.blocks());
        same_in(&rt, &step, replayed.live.unknown(), 0);
        let numbers = listed(rt.alloc(), &texts.numbers)?;
        same_in(&rt, &step, numbers.as_slice(), [1, 2, 0, 1, 2].as_slice());
    }
    Ok(())
}
