//! The number of program headers in section header 0.

use crate::comparisons::same;
use crate::cores::{LOAD, NOTES, Refusal, SAMPLE, are_refused};
use crate::elf::facts::{Accepted, Facts, PART, SEGMENT, are_accepted};
use leak_elf::ElfError;
use std::test::Fail;

/// The facts of the sample core.
const AS_THE_SAMPLE: Facts = Facts {
    segments: &[SEGMENT],
    parts: &[PART],
    undumped: 0,
    words: &[(0x10ff8, Some(0))],
    nexts: &[(0, Some(0x10000))],
};

/// The facts of a core of no program header.
const NO_HEADER: Facts = Facts {
    segments: &[],
    parts: &[],
    undumped: 0,
    words: &[],
    nexts: &[],
};

/// Cores with `e_shoff`, with 0xffff in `e_phnum`, and with a number at `sh_info` of section header 0. The last 64 bytes
/// of the second are a section header of zeros.
static NUMBERS: [Accepted; 2] = [
    (
        SAMPLE,
        SAMPLE,
        &[(40, 600), (56, 0xffff), (644, 2)],
        AS_THE_SAMPLE,
    ),
    (
        SAMPLE,
        SAMPLE,
        &[(40, 8128), (56, 0xffff), (8172, 0)],
        NO_HEADER,
    ),
];

/// One that is too large.
static TOO_MANY: [Refusal; 1] = [(
    SAMPLE,
    SAMPLE,
    &[(40, 600), (56, 0xffff), (644, 200)],
    &[],
    Some(ElfError::TableCut),
)];

#[test]
fn the_number_stands_in_section_header_0(rt: HostRuntime) -> Result<(), Fail> {
    are_refused(&rt, rt.alloc(), &TOO_MANY)?;
    are_accepted(&rt, rt.alloc(), &NUMBERS)
}

const REFUSED: Option<ElfError> = Some(ElfError::Extended);

/// Places of section header 0 at which it is missing or cut off. The last four and 64 bytes make at
/// least 2^64, which must not wrap.
static NO_SECTION: [Refusal; 7] = [
    (SAMPLE, SAMPLE, &[(40, 0), (56, 0xffff)], &[], REFUSED),
    (
        SAMPLE,
        SAMPLE,
        &[(40, 8129), (56, 0xffff), (8173, 2)],
        &[],
        REFUSED,
    ),
    (
        SAMPLE,
        SAMPLE,
        &[(40, 8192), (56, 0xffff), (8236, 2)],
        &[],
        REFUSED,
    ),
    (
        SAMPLE,
        SAMPLE,
        &[(40, u64::MAX - 63), (56, 0xffff)],
        &[],
        REFUSED,
    ),
    (
        SAMPLE,
        SAMPLE,
        &[(40, u64::MAX - 62), (56, 0xffff)],
        &[],
        REFUSED,
    ),
    (
        SAMPLE,
        SAMPLE,
        &[(40, u64::MAX - 43), (56, 0xffff)],
        &[],
        REFUSED,
    ),
    (
        SAMPLE,
        SAMPLE,
        &[(40, u64::MAX), (56, 0xffff)],
        &[],
        REFUSED,
    ),
];

#[test]
fn a_section_header_that_is_missing_or_cut_is_refused(rt: HostRuntime) -> Result<(), Fail> {
    are_refused(&rt, rt.alloc(), &NO_SECTION)
}

/// Places of section header 0 in cores whose `e_phnum` is the number.
static UNREAD: [Accepted; 3] = [
    (
        SAMPLE,
        SAMPLE,
        &[(40, 600), (56, 2), (644, 1)],
        AS_THE_SAMPLE,
    ),
    (
        SAMPLE,
        SAMPLE,
        &[(40, 8129), (56, 2), (8173, 1)],
        AS_THE_SAMPLE,
    ),
    (SAMPLE, SAMPLE, &[(40, u64::MAX), (56, 2)], AS_THE_SAMPLE),
];

#[test]
fn section_headers_of_other_cores_are_not_looked_at(rt: HostRuntime) -> Result<(), Fail> {
    are_accepted(&rt, rt.alloc(), &UNREAD)
}

/// Words of a core of seventy thousand program headers, which follow the sample. The first two are those of the sample.
const SEVENTY_THOUSAND: [(usize, u64); 12] = [
    (32, 8192),
    (40, 600),
    (56, 0xffff),
    (644, 70_000),
    (8192, NOTES),
    (8200, 176),
    (8224, 356),
    (8248, LOAD),
    (8256, 4096),
    (8264, 0x10000),
    (8280, 4096),
    (8288, 4096),
];

/// How many bytes it has.
const LEN: usize = 8192 + 56 * 70_000;

static WITH_ALL: [Accepted; 1] = [(SAMPLE, LEN, &SEVENTY_THOUSAND, AS_THE_SAMPLE)];

/// Without its last byte the table is cut.
static WITHOUT_THE_LAST: [Refusal; 1] = [(
    SAMPLE,
    LEN - 1,
    &SEVENTY_THOUSAND,
    &[],
    Some(ElfError::TableCut),
)];

#[test]
fn seventy_thousand_headers_are_read(rt: HostRuntime) -> Result<(), Fail> {
    same(&rt, LEN, 3_928_192);
    are_refused(&rt, rt.alloc(), &WITHOUT_THE_LAST)?;
    are_accepted(&rt, rt.alloc(), &WITH_ALL)
}

/// How often a core that claims more headers than it has is read. If each claimed header cost a
/// nanosecond, the test would run past the minute that it has.
const READS: usize = 100;

const CUT: Option<ElfError> = Some(ElfError::TableCut);

/// The last table would end past 2^64, which must not wrap.
static CLAIMS: [Refusal; 3] = [
    (
        SAMPLE,
        SAMPLE,
        &[(32, 64), (40, 600), (56, 0xffff), (644, 4_000_000_000)],
        &[],
        CUT,
    ),
    (
        SAMPLE,
        SAMPLE,
        &[(32, 64), (40, 600), (56, 0xffff), (644, 0xffff_ffff)],
        &[],
        CUT,
    ),
    (
        SAMPLE,
        SAMPLE,
        &[(32, u64::MAX), (40, 600), (56, 0xffff), (644, 0xffff_ffff)],
        &[],
        CUT,
    ),
];

#[test]
fn four_thousand_million_claimed_headers_cost_nothing(rt: HostRuntime) -> Result<(), Fail> {
    for _ in 0..READS {
        are_refused(&rt, rt.alloc(), &CLAIMS)?;
    }
    Ok(())
}
