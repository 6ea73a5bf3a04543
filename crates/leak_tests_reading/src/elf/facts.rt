//! Facts of an accepted core.

use crate::comparisons::{same, same_in};
use crate::cores::{WordsAt, made};
use leak_elf::{Image, NotePart, Segment, Words};
use std::alloc::Global;
use std::process::Abort;
use std::test::Fail;

/// The segment of the sample core.
pub(crate) const SEGMENT: Segment = Segment {
    vaddr: 0x10000,
    memsz: 4096,
    offset: 4096,
    filesz: 4096,
    writable: true,
};

/// The part of notes of the sample core.
pub(crate) const PART: NotePart = NotePart {
    offset: 176,
    filesz: 356,
};

/// Addresses, and what an accepted core answers for each.
pub(crate) type Answers<'a> = &'a [(u64, Option<u64>)];

/// Ends the test if the words at addresses are others.
fn has_words(rt: &impl Abort, image: &Image, words: Answers) {
    for (addr, word) in words {
        same_in(rt, addr, image.word(*addr), *word);
    }
}

/// Ends the test if the first addresses of words from addresses on are others.
pub(crate) fn has_nexts(rt: &impl Abort, image: &Image, nexts: Answers) {
    for (from, next) in nexts {
        same_in(rt, from, image.next(*from), *next);
    }
}

/// Ends the test if a segment or a part of notes has fewer bytes than it says, or more.
fn has_bytes(rt: &impl Abort, image: &Image) {
    for i in 0..image.segments().len() {
        let len = image.bytes_of(i).len() as u64;
        same(rt, len, image.segments()[i].filesz);
    }
    for i in 0..image.note_parts().len() {
        let len = image.note_bytes(i).len() as u64;
        same(rt, len, image.note_parts()[i].filesz);
    }
}

/// The facts of an accepted core.
#[derive(Clone, Copy)]
pub(crate) struct Facts<'a> {
    /// Its segments, by address.
    pub(crate) segments: &'a [Segment],
    /// Its parts of notes, in the order of the headers.
    pub(crate) parts: &'a [NotePart],
    /// How many bytes of writable segments are not in the file.
    pub(crate) undumped: u64,
    /// Words at addresses.
    pub(crate) words: Answers<'a>,
    /// The first addresses of words from addresses on.
    pub(crate) nexts: Answers<'a>,
}

/// Ends the test if the core is refused, or has other facts.
pub(crate) fn has_facts(
    rt: &impl Abort,
    alloc: Global,
    core: &[u8],
    facts: &Facts,
) -> Result<(), Fail> {
    let image = Image::read(alloc, core)?;
    same(rt, image.segments(), facts.segments);
    same(rt, image.note_parts(), facts.parts);
    same(rt, image.undumped(), facts.undumped);
    has_bytes(rt, &image);
    has_words(rt, &image, facts.words);
    has_nexts(rt, &image, facts.nexts);
    Ok(())
}

/// A core that is [`made`] so, and its facts.
pub(crate) type Accepted = (usize, usize, WordsAt<'static>, Facts<'static>);

/// Ends the test if the core is refused, or has other facts.
fn has(rt: &impl Abort, alloc: Global, row: &Accepted) -> Result<(), Fail> {
    let core = made(alloc, row.0, row.1, row.2, &[])?;
    has_facts(rt, alloc, core.as_slice(), &row.3)
}

/// Ends the test if one of the cores is refused, or has other facts.
pub(crate) fn are_accepted(rt: &impl Abort, alloc: Global, rows: &[Accepted]) -> Result<(), Fail> {
    for row in rows {
        has(rt, alloc, row)?;
    }
    Ok(())
}
