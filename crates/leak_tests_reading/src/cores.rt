//! Cores that differ from the sample in a named way.

use crate::comparisons::same_in;
use leak_elf::{ElfError, Image, core_k};
use std::alloc::Global;
use std::process::Abort;
use std::test::Fail;

/// How many bytes the sample core has.
pub const SAMPLE: usize = 8192;

/// The first word of a program header of a segment, and of one of a part of notes: its type and its flags.
pub const LOAD: u64 = 0x6_0000_0001;

pub const NOTES: u64 = 0x6_0000_0004;

/// Words of a core, each with its file offset.
pub type WordsAt<'a> = &'a [(usize, u64)];

/// Bytes of a core, each row with its file offset.
pub type BytesAt<'a> = &'a [(usize, &'a [u8])];

/// Replaces the bytes from the file offset on, as many as the core has there.
pub fn set(core: &mut Vec<u8>, at: usize, bytes: &[u8]) {
    for (place, byte) in core.iter_mut().skip(at).zip(bytes) {
        *place = *byte;
    }
}

/// Replaces words and then bytes.
fn set_all(core: &mut Vec<u8>, words: WordsAt, bytes: BytesAt) {
    for (at, word) in words {
        set(core, *at, &word.to_le_bytes());
    }
    for (at, bytes) in bytes {
        set(core, *at, bytes);
    }
}

/// The first bytes of the sample core, zeros after them up to the length, and then words and bytes replaced.
pub fn made(
    alloc: Global,
    first: usize,
    len: usize,
    words: WordsAt,
    bytes: BytesAt,
) -> Result<Vec<u8>, Fail> {
    let mut core = core_k(alloc, &[])?;
    core.truncate(first);
    core.resize(len, 0)?;
    set_all(&mut core, words, bytes);
    Ok(core)
}

/// The sample core with words and bytes replaced.
pub fn changed(alloc: Global, words: WordsAt, bytes: BytesAt) -> Result<Vec<u8>, Fail> {
    made(alloc, SAMPLE, SAMPLE, words, bytes)
}

/// Appends a program header whose alignment and physical address are 0. Its first word is its type and its flags.
pub fn push_header(
    core: &mut Vec<u8>,
    kind: u64,
    offset: u64,
    vaddr: u64,
    filesz: u64,
    memsz: u64,
) -> Result<(), Fail> {
    for field in &[kind, offset, vaddr, 0, filesz, memsz, 0] {
        core.extend_from_slice(&field.to_le_bytes())?;
    }
    Ok(())
}

/// A core that begins with the sample's file header, with another number of program headers.
pub fn begun(alloc: Global, headers: u64) -> Result<Vec<u8>, Fail> {
    made(alloc, 64, 64, &[(56, headers)], &[])
}

/// Why the core is refused.
pub fn refusal(alloc: Global, core: &[u8]) -> Option<ElfError> {
    Image::read(alloc, core).err()
}

/// A core that is [`made`] so, and why it is refused.
pub type Refusal = (
    usize,
    usize,
    WordsAt<'static>,
    BytesAt<'static>,
    Option<ElfError>,
);

/// Why the core that is [`made`] so is refused.
fn refusal_of(alloc: Global, row: &Refusal) -> Result<Option<ElfError>, Fail> {
    let core = made(alloc, row.0, row.1, row.2, row.3)?;
    Ok(refusal(alloc, core.as_slice()))
}

/// Ends the test if one of the cores is refused for another reason, and prints its number.
pub fn are_refused(rt: &impl Abort, alloc: Global, rows: &[Refusal]) -> Result<(), Fail> {
    for (i, row) in rows.iter().enumerate() {
        same_in(rt, &i, refusal_of(alloc, row)?, row.4);
    }
    Ok(())
}
