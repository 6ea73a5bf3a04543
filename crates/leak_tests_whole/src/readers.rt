//! Reading an input to its end, from readers that are long, fail or are interrupted.

use crate::comparisons::{same, same_in};
use leak_find::{ReadFault, read_all};
use leak_tests_inputs::examples::ONE_BLOCK;
use leak_tests_inputs::fakes::{Endless, Source};
use std::test::Fail;

#[test]
fn as_many_bytes_as_the_limit_are_read(rt: HostRuntime) -> Result<(), Fail> {
    let mut five: &[u8] = b"abcde";
    let read = read_all(rt.alloc(), &mut five, 5)?;
    same(&rt, read.as_slice(), b"abcde".as_slice());
    let mut none: &[u8] = b"";
    let read = read_all(rt.alloc(), &mut none, 0)?;
    same(&rt, read.as_slice(), b"".as_slice());
    Ok(())
}

#[test]
fn one_byte_over_the_limit_is_taken_and_no_more(rt: HostRuntime) -> Result<(), Fail> {
    let mut five: &[u8] = b"abcde";
    let result = read_all(rt.alloc(), &mut five, 4);
    same(&rt, result.err(), Some(ReadFault::TooLong));
    same(&rt, five, b"".as_slice());
    let mut endless = Endless { taken: 0 };
    let result = read_all(rt.alloc(), &mut endless, 5);
    same(&rt, result.err(), Some(ReadFault::TooLong));
    same(&rt, endless.taken, 6);
    Ok(())
}

#[test]
fn a_read_that_fails_is_a_fault_of_the_device(rt: HostRuntime) -> Result<(), Fail> {
    // Three reads give the 36 bytes, and the fourth finds the end.
    for reads in 0..4 {
        let source = Source::slow(rt.alloc(), ONE_BLOCK.as_bytes(), 12)?;
        let mut source = source.failing_after(reads);
        let result = read_all(rt.alloc(), &mut source, 36);
        same_in(&rt, &reads, result.err(), Some(ReadFault::Device));
    }
    let source = Source::slow(rt.alloc(), ONE_BLOCK.as_bytes(), 12)?;
    let mut source = source.failing_after(4);
    let read = read_all(rt.alloc(), &mut source, 36)?;
    same(&rt, read.as_slice(), ONE_BLOCK.as_bytes());
    Ok(())
}

#[test]
fn interrupted_reads_are_counted(rt: HostRuntime) -> Result<(), Fail> {
    let mut patient = Source::of(rt.alloc(), b"abcde")?.interrupted(999_999);
    let read = read_all(rt.alloc(), &mut patient, 5)?;
    same(&rt, read.as_slice(), b"abcde".as_slice());
    let mut restless = Source::of(rt.alloc(), b"abcde")?.interrupted(1_000_000);
    let result = read_all(rt.alloc(), &mut restless, 5);
    same(&rt, result.err(), Some(ReadFault::TooManyTurns));
    same(&rt, restless.left(), 5);
    Ok(())
}
