//! Reading an input piece by piece.

use crate::comparisons::{same, same_in};
use leak_streams::{ReadFault, Reading, read_all};
use leak_tests_inputs::fakes::{Giver, Source, Turn};
use std::test::Fail;

#[test]
fn a_slice_is_one_piece(rt: HostRuntime) -> Result<(), Fail> {
    let mut five: &[u8] = b"abcde";
    let mut reading = Reading::begin::<&[u8]>(rt.alloc(), 8)?;
    for piece in [b"abcde".as_slice(), b"".as_slice()] {
        same(&rt, reading.next_piece(&mut five, 5)?, !piece.is_empty());
        same(&rt, reading.piece(), piece);
    }
    Ok(())
}

#[test]
fn a_reading_waits_while_another_input_is_read(rt: HostRuntime) -> Result<(), Fail> {
    let mut core = Source::slow(rt.alloc(), b"abcde", 2)?;
    let mut reading = Reading::begin::<Source>(rt.alloc(), 8)?;
    same(&rt, reading.next_piece(&mut core, 5)?, true);
    let mut log: &[u8] = b"log";
    let read = read_all(rt.alloc(), &mut log, 3)?;
    same(&rt, read.as_slice(), b"log".as_slice());
    same(&rt, reading.piece(), b"ab".as_slice());
    for piece in [b"cd".as_slice(), b"e".as_slice(), b"".as_slice()] {
        same(&rt, reading.next_piece(&mut core, 5)?, !piece.is_empty());
        same(&rt, reading.piece(), piece);
    }
    Ok(())
}

#[test]
fn interrupted_reads_are_no_pieces(rt: HostRuntime) -> Result<(), Fail> {
    let turns = [
        Turn::Interrupted(3),
        Turn::Bytes(2),
        Turn::Interrupted(2),
        Turn::Bytes(1),
    ];
    let mut source = Giver::of(rt.alloc(), b"abcde", &turns)?;
    let mut reading = Reading::begin::<Giver>(rt.alloc(), 8)?;
    for piece in [
        b"ab".as_slice(),
        b"c".as_slice(),
        b"de".as_slice(),
        b"".as_slice(),
    ] {
        same(&rt, reading.next_piece(&mut source, 5)?, !piece.is_empty());
        same(&rt, reading.piece(), piece);
    }
    // Four reads were not interrupted, and the last of them found the end.
    same(&rt, source.reads, 9);
    Ok(())
}

#[test]
fn a_fault_leaves_no_piece(rt: HostRuntime) -> Result<(), Fail> {
    let turns = [Turn::Bytes(2), Turn::Fails];
    let mut source = Giver::of(rt.alloc(), b"abcde", &turns)?;
    let mut reading = Reading::begin::<Giver>(rt.alloc(), 8)?;
    same(&rt, reading.next_piece(&mut source, 5)?, true);
    let result = reading.next_piece(&mut source, 5);
    same(&rt, result.err(), Some(ReadFault::Device));
    same(&rt, reading.piece(), b"".as_slice());
    same(&rt, (source.left(), source.reads), (3, 2));
    Ok(())
}

#[test]
fn the_limit_is_of_all_pieces(rt: HostRuntime) -> Result<(), Fail> {
    let mut source = Source::slow(rt.alloc(), b"abcde", 2)?;
    let mut reading = Reading::begin::<Source>(rt.alloc(), 8)?;
    same(&rt, reading.next_piece(&mut source, 3)?, true);
    let result = reading.next_piece(&mut source, 3);
    same(&rt, result.err(), Some(ReadFault::TooLong));
    same(&rt, source.left(), 1);
    Ok(())
}

#[test]
fn a_piece_has_at_most_its_size_and_a_byte_at_least(rt: HostRuntime) -> Result<(), Fail> {
    let cases = [
        (0, b"a b c d e ".as_slice()),
        (1, b"a b c d e ".as_slice()),
        (2, b"ab cd e ".as_slice()),
        (4, b"abcd e ".as_slice()),
        (5, b"abcde ".as_slice()),
        (6, b"abcde ".as_slice()),
    ];
    for (size, wanted) in cases {
        let mut five: &[u8] = b"abcde";
        let mut reading = Reading::begin::<&[u8]>(rt.alloc(), size)?;
        let mut pieces = Vec::new(rt.alloc());
        for _ in 0..6 {
            if reading.next_piece(&mut five, 5)? {
                pieces.extend_from_slice(reading.piece())?;
                pieces.push(b' ')?;
            }
        }
        same_in(&rt, &size, pieces.as_slice(), wanted);
    }
    Ok(())
}
