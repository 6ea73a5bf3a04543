//! Segments, notes and words of an accepted core.

use crate::comparisons::same;
use crate::cores::{LOAD, SAMPLE, begun, push_header};
use crate::elf::facts::{Accepted, Facts, PART, SEGMENT, are_accepted, has_facts, has_nexts};
use leak_elf::{Image, Segment, Words, core_k};
use std::alloc::Global;
use std::process::Abort;
use std::test::Fail;

/// The first bytes of the segment, whose first word is 0x0102030405060708, and of the part of notes.
static SEGMENT_FIRST: [u8; 9] = [8, 7, 6, 5, 4, 3, 2, 1, 0];

static PART_FIRST: [u8; 21] = *b"\x05\0\0\0\x50\x01\0\0\x01\0\0\0CORE\0\0\0\0\0";

/// Whether the segment has these first bytes and 4096 in all, and the part of notes those and 356.
fn begins_as_the_sample(image: &Image) -> bool {
    if image.segments().is_empty() || image.note_parts().is_empty() {
        return false;
    }
    let bytes = image.bytes_of(0);
    let notes = image.note_bytes(0);
    let have_sizes = bytes.len() == 4096 && notes.len() == 356;
    have_sizes && bytes.starts_with(&SEGMENT_FIRST) && notes.starts_with(&PART_FIRST)
}

/// The facts of the sample core with its first word set.
static PARTS: Facts = Facts {
    segments: &[SEGMENT],
    parts: &[PART],
    undumped: 0,
    words: &[(0x10000, Some(0x0102_0304_0506_0708))],
    nexts: &[],
};

/// Ends the test if the core is refused, or the parts begin otherwise.
fn begins(rt: &impl Abort, alloc: Global, core: &[u8]) -> Result<(), Fail> {
    let image = Image::read(alloc, core)?;
    assert!(rt; begins_as_the_sample(&image));
    Ok(())
}

#[test]
fn the_parts_of_the_sample(rt: HostRuntime) -> Result<(), Fail> {
    let core = core_k(rt.alloc(), &[(0x10000, 0x0102_0304_0506_0708)])?;
    has_facts(&rt, rt.alloc(), core.as_slice(), &PARTS)?;
    begins(&rt, rt.alloc(), core.as_slice())
}

/// Words of the sample core, with the address of each. Of two at one address the later counts.
const WORDS: [(u64, u64); 3] = [(0x10008, 0x10100), (0x10010, 7), (0x10008, 0x10200)];

/// The facts of the sample core with these words.
static FACTS: Facts = Facts {
    segments: &[SEGMENT],
    parts: &[PART],
    undumped: 0,
    words: &[
        (0x10008, Some(0x10200)),
        (0x10010, Some(7)),
        (0x10ff8, Some(0)),
        (0x11000, None),
        (0xfff8, None),
        (0x10004, None),
    ],
    nexts: &[
        (0, Some(0x10000)),
        (0x10001, Some(0x10008)),
        (0x10ff9, None),
    ],
};

/// Ends the test if the run of the core from 0x10008 on has not all bytes, or others before the tenth.
fn has_its_run(rt: &impl Abort, alloc: Global, core: &[u8]) -> Result<(), Fail> {
    let image = Image::read(alloc, core)?;
    let run = image.run(0x10008);
    same(rt, run.len(), 0xff8);
    assert!(rt; run.starts_with(&RUN_FIRST));
    Ok(())
}

/// The first bytes of the run: those of the two words there.
static RUN_FIRST: [u8; 9] = [0, 2, 1, 0, 0, 0, 0, 0, 7];

#[test]
fn words_of_the_sample(rt: HostRuntime) -> Result<(), Fail> {
    let core = core_k(rt.alloc(), &WORDS)?;
    has_facts(&rt, rt.alloc(), core.as_slice(), &FACTS)?;
    has_its_run(&rt, rt.alloc(), core.as_slice())
}

/// The facts of the sample core with fewer bytes of its segment in the file.
const CUT: Facts = Facts {
    segments: &[Segment {
        vaddr: 0x10000,
        memsz: 4096,
        offset: 4096,
        filesz: 0x7fc,
        writable: true,
    }],
    parts: &[PART],
    undumped: 2052,
    words: &[(0x107f0, Some(0)), (0x107f8, None)],
    nexts: &[(0x107f1, None)],
};

static CUT_OFF: [Accepted; 1] = [(SAMPLE, SAMPLE, &[(152, 0x7fc)], CUT)];

#[test]
fn bytes_past_the_file_size_are_no_words(rt: HostRuntime) -> Result<(), Fail> {
    are_accepted(&rt, rt.alloc(), &CUT_OFF)
}

/// Addresses of segments, and how many bytes of each are in the file. Only the second and the fourth have 8 dumped
/// bytes from a multiple of 8 on.
static SHORT: [(u64, u64); 5] = [
    (0x1000, 7),
    (0x2000, 16),
    (0x3001, 14),
    (0x4001, 15),
    (0x5000, 0),
];

/// The first addresses of words in these segments, from addresses on.
static NEXTS: [(u64, Option<u64>); 8] = [
    (0, Some(0x2000)),
    (0x1000, Some(0x2000)),
    (0x2001, Some(0x2008)),
    (0x2009, Some(0x4008)),
    (0x3008, Some(0x4008)),
    (0x4008, Some(0x4008)),
    (0x4009, None),
    (0x5000, None),
];

/// A core of these segments.
fn short_segments(alloc: Global) -> Result<Vec<u8>, Fail> {
    let mut core = begun(alloc, 5)?;
    for (vaddr, filesz) in &SHORT {
        push_header(&mut core, LOAD, 0, *vaddr, *filesz, 4096 - 1)?;
    }
    Ok(core)
}

/// Ends the test if the core is refused, or its next words are others.
fn skips(rt: &impl Abort, alloc: Global, core: &[u8]) -> Result<(), Fail> {
    let image = Image::read(alloc, core)?;
    has_nexts(rt, &image, &NEXTS);
    Ok(())
}

#[test]
fn next_skips_segments_of_too_few_bytes(rt: HostRuntime) -> Result<(), Fail> {
    let core = short_segments(rt.alloc())?;
    skips(&rt, rt.alloc(), core.as_slice())
}
