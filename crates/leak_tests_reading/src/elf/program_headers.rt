//! Refusals of program headers, and headers that are skipped.

use crate::cores::{LOAD, NOTES, Refusal, SAMPLE, are_refused};
use crate::elf::facts::{Accepted, Facts, PART, SEGMENT, are_accepted};
use leak_elf::{ElfError, NotePart, Segment};
use std::test::Fail;

/// Words of a core of a part of notes, the sample's segment, and a third PT_LOAD header.
macro_rules! three {
    ($offset:expr, $vaddr:expr, $filesz:expr, $memsz:expr) => {
        &[
            (56, 3),
            (64, NOTES),
            (72, 232),
            (96, 356),
            (120, LOAD),
            (128, 4096),
            (136, 0x10000),
            (152, 4096),
            (160, 4096),
            (176, LOAD),
            (184, $offset),
            (192, $vaddr),
            (208, $filesz),
            (216, $memsz),
        ]
    };
}

/// The sample cut off and with words replaced, and a core of a third segment, inside the sample's.
static FAULTS: [Refusal; 6] = [
    (8191, 8191, &[], &[], Some(ElfError::Truncated(1))),
    (
        SAMPLE,
        SAMPLE,
        &[(72, 8000)],
        &[],
        Some(ElfError::Truncated(0)),
    ),
    (
        SAMPLE,
        SAMPLE,
        &[(160, 0x800)],
        &[],
        Some(ElfError::SizeOrder(1)),
    ),
    (
        SAMPLE,
        SAMPLE,
        &[(136, 0xffff_ffff_ffff_f000)],
        &[],
        Some(ElfError::Wrap(1)),
    ),
    // The highest page of memory but one.
    (SAMPLE, SAMPLE, &[(136, 0xffff_ffff_ffff_e000)], &[], None),
    (
        64,
        SAMPLE,
        three!(0, 0x10800, 0, 0x1000),
        &[],
        Some(ElfError::Overlap(2)),
    ),
];

#[test]
fn each_fault_of_a_program_header_is_refused(rt: HostRuntime) -> Result<(), Fail> {
    are_refused(&rt, rt.alloc(), &FAULTS)
}

/// The part of notes of a core of three program headers.
const PART_OF_THREE: NotePart = NotePart {
    offset: 232,
    filesz: 356,
};

/// The facts of a core whose third header is a segment of a page after the sample's, which is not in the file.
const UNDUMPED: Facts = Facts {
    segments: &[
        SEGMENT,
        Segment {
            vaddr: 0x11000,
            memsz: 0x1000,
            offset: 1_000_000,
            filesz: 0,
            writable: true,
        },
    ],
    parts: &[PART_OF_THREE],
    undumped: 4096,
    words: &[(0x11000, None)],
    nexts: &[],
};

static AFTER: [Accepted; 1] = [(64, SAMPLE, three!(1_000_000, 0x11000, 0, 0x1000), UNDUMPED)];

#[test]
fn a_segment_after_another_may_be_left_out_of_the_file(rt: HostRuntime) -> Result<(), Fail> {
    are_accepted(&rt, rt.alloc(), &AFTER)
}

/// The facts of a core whose third header says nothing.
const DROPPED: Facts = Facts {
    segments: &[SEGMENT],
    parts: &[PART_OF_THREE],
    undumped: 0,
    words: &[],
    nexts: &[],
};

/// Such a segment lies inside another, and shares no address with it. At the last address it doesn't wrap.
static WITHOUT_ADDRESSES: [Accepted; 2] = [
    (64, SAMPLE, three!(0, 0x10800, 0, 0), DROPPED),
    (64, SAMPLE, three!(0, 0xffff_ffff_ffff_ffff, 0, 0), DROPPED),
];

#[test]
fn a_segment_without_addresses_is_dropped(rt: HostRuntime) -> Result<(), Fail> {
    are_accepted(&rt, rt.alloc(), &WITHOUT_ADDRESSES)
}

/// The facts of a core of no segment.
const NO_SEGMENT: Facts = Facts {
    segments: &[],
    parts: &[PART],
    undumped: 0,
    words: &[],
    nexts: &[],
};

/// Those of a core of no header.
const NO_HEADER: Facts = Facts {
    segments: &[],
    parts: &[],
    undumped: 0,
    words: &[],
    nexts: &[],
};

static OTHER_TYPES: [Accepted; 2] = [
    (SAMPLE, SAMPLE, &[(120, 0x6_6474_e551)], NO_SEGMENT),
    (SAMPLE, SAMPLE, &[(56, 0)], NO_HEADER),
];

#[test]
fn headers_of_other_types_are_skipped(rt: HostRuntime) -> Result<(), Fail> {
    are_accepted(&rt, rt.alloc(), &OTHER_TYPES)
}

/// The facts of a core of a part of notes without bytes.
const EMPTY_NOTES: Facts = Facts {
    segments: &[],
    parts: &[NotePart {
        offset: 1_000_000,
        filesz: 0,
    }],
    undumped: 0,
    words: &[],
    nexts: &[],
};

static PAST_THE_END: [Accepted; 1] = [(
    64,
    120,
    &[(56, 1), (64, NOTES), (72, 1_000_000)],
    EMPTY_NOTES,
)];

#[test]
fn empty_notes_may_point_past_the_end(rt: HostRuntime) -> Result<(), Fail> {
    are_accepted(&rt, rt.alloc(), &PAST_THE_END)
}
