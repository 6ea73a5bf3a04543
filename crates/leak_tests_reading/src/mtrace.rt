//! Lines of a log.

use crate::comparisons::{print, same, same_in};
use leak_mtrace::{Kind, Line, Log, LogError, Reader, parse_line};
use std::alloc::Global;
use std::process::Abort;
use std::test::Fail;

/// A line, and its kind, its address, its size and where its place is.
type Row = (&'static str, Kind, u64, u64, (usize, usize));

/// Ends the test if one of the lines is read as another.
fn are_lines(rt: &impl Abort, rows: &[Row]) {
    for (text, kind, addr, size, caller) in rows {
        let line = Line {
            kind: *kind,
            addr: *addr,
            size: *size,
            caller: *caller,
        };
        same_in(rt, text, parse_line(text.as_bytes()), Some(line));
    }
}

const NO_PLACE: (usize, usize) = (0, 0);

/// Lines without a place.
static WITHOUT_PLACE: [Row; 11] = [
    ("", Kind::Remark, 0, 0, NO_PLACE),
    ("= Start", Kind::Remark, 0, 0, NO_PLACE),
    ("+ 0x10100 0x20", Kind::Alloc, 65792, 32, NO_PLACE),
    ("< 0x10100", Kind::MoveOut, 65792, 0, NO_PLACE),
    ("> 0x10200 0", Kind::MoveIn, 66048, 0, NO_PLACE),
    (
        "! 0x10100 0xffffffffffffffff",
        Kind::Failed,
        65792,
        u64::MAX,
        NO_PLACE,
    ),
    ("+ (nil) 0x10", Kind::Alloc, 0, 16, NO_PLACE),
    ("- (nil)", Kind::Free, 0, 0, NO_PLACE),
    ("+ 0x0 0x0", Kind::Alloc, 0, 0, NO_PLACE),
    (
        "+ (nil) 0xffffffffffffffff",
        Kind::Alloc,
        0,
        u64::MAX,
        NO_PLACE,
    ),
    (
        "- 0xfedcba9876543210",
        Kind::Free,
        0xfedc_ba98_7654_3210,
        0,
        NO_PLACE,
    ),
];

#[test]
fn lines_without_a_place(rt: HostRuntime) {
    are_lines(&rt, &WITHOUT_PLACE);
}

/// Addresses of several lengths, and each digit.
static ADDRESSES: [Row; 9] = [
    ("+ 0x1 0x20", Kind::Alloc, 1, 32, NO_PLACE),
    (
        "+ 0x5b0e66d74a0 0x20",
        Kind::Alloc,
        0x5b0_e66d_74a0,
        32,
        NO_PLACE,
    ),
    (
        "+ 0x55b0e66d74a0 0xff",
        Kind::Alloc,
        0x55b0_e66d_74a0,
        255,
        NO_PLACE,
    ),
    (
        "> 0x55b0e66d74a0 0",
        Kind::MoveIn,
        0x55b0_e66d_74a0,
        0,
        NO_PLACE,
    ),
    (
        "+ 0x155b0e66d74a0 0x20",
        Kind::Alloc,
        0x1_55b0_e66d_74a0,
        32,
        NO_PLACE,
    ),
    (
        "+ 0xfedcba9876543210 0x20",
        Kind::Alloc,
        0xfedc_ba98_7654_3210,
        32,
        NO_PLACE,
    ),
    (
        "+ 0x0123456789ab 0xcdef",
        Kind::Alloc,
        0x0123_4567_89ab,
        0xcdef,
        NO_PLACE,
    ),
    (
        "! 0x10100 0x123456789abcdef",
        Kind::Failed,
        65792,
        0x0123_4567_89ab_cdef,
        NO_PLACE,
    ),
    (
        "+ (nil) 0x123456789",
        Kind::Alloc,
        0,
        0x1_2345_6789,
        NO_PLACE,
    ),
];

#[test]
fn addresses_of_several_lengths(rt: HostRuntime) {
    are_lines(&rt, &ADDRESSES);
}

/// Lines with a place.
static WITH_PLACE: [Row; 8] = [
    (
        "@ ./a b]c:(main+0x1c)[0x113c] + 0x10100 0x20",
        Kind::Alloc,
        65792,
        32,
        (2, 29),
    ),
    ("@ [0x401136] - 0x10100", Kind::Free, 65792, 0, (2, 12)),
    ("@ ./a.out + 0x10100 0x20", Kind::Alloc, 65792, 32, (2, 9)),
    // the place is one space
    ("@   + 0x1 0x1", Kind::Alloc, 1, 1, (2, 3)),
    // as glibc 2.36 writes them
    (
        "@ ./a.out:[0x401136] + 0x1c502a0 0x48",
        Kind::Alloc,
        0x1c5_02a0,
        72,
        (2, 20),
    ),
    (
        "@ /lib/x86_64-linux-gnu/libstdc++.so.6:(_Znwm+1c)[0x7f2a10] + 0x55e0 0x10",
        Kind::Alloc,
        0x55e0,
        16,
        (2, 59),
    ),
    ("@ [0x7f11] - 0x55e0", Kind::Free, 0x55e0, 0, (2, 10)),
    // a file's name may hold blanks, brackets and what looks like a call
    (
        "@ ./a ] + 0x1 (b)[c]:[0x1159] < 0x55d0",
        Kind::MoveOut,
        0x55d0,
        0,
        (2, 29),
    ),
];

#[test]
fn lines_with_a_place(rt: HostRuntime) {
    are_lines(&rt, &WITH_PLACE);
}

/// Lines that mtrace does not write.
static REFUSED: [&str; 27] = [
    "+ 0x10100",
    "+ 0x10100 20",
    "+  0x10100 0x20",
    "+ 0X10100 0x20",
    "+ 0x10000000000000000 0x1",
    "- 0x10100 ",
    "* 0x10100",
    "+ 0x 0x1",
    "+ 0xA 0x1",
    // each has a byte beside the digits or beside the letters
    "+ 0x55b0e66d74/0 0x20",
    "+ 0x55b0e66d74:0 0x20",
    "+ 0x55b0e66d74`0 0x20",
    "+ 0x55b0e66d74g0 0x20",
    "+ 0x55b0e66d74A0 0x20",
    // the space behind 12 digits is the second, or there is none
    "+ 0x10100 0x5555 0x20",
    "+ 0x55b0e66d74a0  0x20",
    "+ 0x55b0e66d74a0_0x20",
    "+ 0x55b0e66d74a0 ",
    "- 0x10100\r",
    " - 0x10100",
    "< (null)",
    // no place, or an empty one
    "@",
    "@ + 0x1 0x1",
    "@  + 0x1 0x1",
    // no space after the place
    "@ [0x1159]+ 0x55d0 0x20",
    "@ [0x1159]",
    "@ ./a.out = Start",
];

#[test]
fn lines_that_mtrace_does_not_write(rt: HostRuntime) {
    for text in &REFUSED {
        same_in(&rt, text, parse_line(text.as_bytes()), None);
    }
}

/// A log with its remarks, and the kinds of its lines.
const LOG: &str = "= Start\n\n@ ./a.out:[0x401136] + 0x1c502a0 0x48\n= End\n";

static KINDS: [Kind; 4] = [Kind::Remark, Kind::Remark, Kind::Alloc, Kind::Remark];

/// Ends the test if one of the lines is of another kind than those, or has another place than the allocation has.
fn are_of_kinds(rt: &impl Abort, lines: &[Line]) {
    same(rt, lines.len(), KINDS.len());
    for (line, kind) in lines.iter().zip(&KINDS) {
        let place = if *kind == Kind::Alloc {
            (11, 29)
        } else {
            (0, 0)
        };
        same(rt, (line.kind, line.caller), (*kind, place));
    }
    same(rt, LOG.get(11..29), Some("./a.out:[0x401136]"));
}

#[test]
fn a_log_with_its_remarks(rt: HostRuntime) -> Result<(), Fail> {
    let log = Log::read(rt.alloc(), LOG.as_bytes())?;
    are_of_kinds(&rt, log.lines());
    same(&rt, (log.torn(), log.whole_len()), (0, LOG.len()));
    Ok(())
}

/// Lines, torn lines and the length of the complete lines, or the refusal.
type Outcome = Result<(usize, u64, usize), LogError>;

fn outcome(alloc: Global, text: &str) -> Outcome {
    let log = Log::read(alloc, text.as_bytes())?;
    Ok((log.lines().len(), log.torn(), log.whole_len()))
}

/// Logs, and what they come to.
static LOGS: [(&str, Outcome); 14] = [
    ("= Start\n\n= End\n", Ok((3, 0, 15))),
    ("", Ok((0, 0, 0))),
    ("\n", Ok((1, 0, 1))),
    ("- 0x1", Ok((0, 1, 0))),
    ("- 0x1\n- 0x", Ok((1, 1, 6))),
    ("+ 0x10100 0x20\n+ 0x10100\n", Err(LogError::BadLine(2))),
    (
        "+ 0x10100\n+ 0xffffffffffffffff 0x1\n",
        Err(LogError::BadLine(1)),
    ),
    (
        "+ 0xffffffffffffffff 0x1\n+ 0x10100\n",
        Err(LogError::Extent(1)),
    ),
    ("+ 0xffffffffffffffff 0\n", Ok((1, 0, 23))),
    ("+ 0xfffffffffffffff0 0xf\n", Ok((1, 0, 25))),
    ("+ 0xfffffffffffffff0 0x10\n", Err(LogError::Extent(1))),
    ("> 0xfffffffffffffff0 0x10\n", Err(LogError::Extent(1))),
    ("! 0xfffffffffffffff0 0x10\n", Ok((1, 0, 26))),
    ("+ (nil) 0xffffffffffffffff\n", Ok((1, 0, 27))),
];

#[test]
fn logs_and_refusals(rt: HostRuntime) {
    for &(text, wanted) in &LOGS {
        same_in(&rt, &text, outcome(rt.alloc(), text), wanted);
    }
}

/// Whether there is a next line, and how many lines came, or why the next line is refused.
fn next_of(reader: &mut Reader) -> Result<(bool, usize), LogError> {
    let is_there = reader.next_line()?.is_some();
    Ok((is_there, reader.count()))
}

#[test]
fn a_reader_counts_its_lines(rt: HostRuntime) {
    let mut reader = Reader::new(b"- 0x1\n\n+ 0x10 0x20\n- 0x");
    same(&rt, reader.count(), 0);
    for wanted in [(true, 1), (true, 2), (true, 3), (false, 3)] {
        same(&rt, next_of(&mut reader), Ok(wanted));
    }
}

static TEXTS: [(LogError, &str); 3] = [
    (LogError::BadLine(17), "line 17 is not an mtrace line"),
    (
        LogError::Extent(2),
        "line 2: block ends past the address space",
    ),
    (LogError::NoMemory, "out of memory"),
];

#[test]
fn refusals_in_words(rt: HostRuntime) -> Result<(), Fail> {
    print(&rt, rt.alloc(), &TEXTS)
}
