//! Cores and logs from named parts.

use leak_blocks::{Live, SmallSpans, replay};
use leak_elf::{Image, core_k};
use leak_mtrace::Log;
use leak_notes::Threads;
use leak_roots::Roots;
use std::alloc::Global;
use std::test::Fail;

/// The address of a word of the sample's segment, less its file offset.
const SHIFT: u64 = 0xf000;

/// What the sample core has in place of a zero, or of a field.
#[derive(Clone, Copy)]
pub enum Part {
    /// The word at an address of the segment.
    Word(u64, u64),
    /// The register rbx of the thread.
    Rbx(u64),
    /// This many bytes of the segment are dumped.
    Dumped(u64),
    /// The part of notes has this many bytes.
    Notes(u64),
    /// The last byte is missing.
    Cut,
}

/// The sample core with the parts set, the later over the earlier.
pub fn core_of(alloc: Global, parts: &[Part]) -> Result<Vec<u8>, Fail> {
    let mut core = core_k(alloc, &[])?;
    for part in parts {
        set_part(&mut core, *part);
    }
    Ok(core)
}

/// Replaces the bytes from the file offset on.
pub fn set(core: &mut Vec<u8>, at: u64, bytes: &[u8]) {
    for (place, byte) in core.iter_mut().skip(at as usize).zip(bytes) {
        *place = *byte;
    }
}

/// Sets the word at an address of the segment.
pub fn set_word(core: &mut Vec<u8>, addr: u64, word: u64) {
    set(core, addr.saturating_sub(SHIFT), &word.to_le_bytes());
}

fn set_part(core: &mut Vec<u8>, part: Part) {
    match part {
        Part::Word(addr, word) => set_word(core, addr, word),
        Part::Rbx(word) => set(core, 348, &word.to_le_bytes()),
        Part::Dumped(count) => set(core, 152, &count.to_le_bytes()),
        Part::Notes(count) => set(core, 96, &count.to_le_bytes()),
        Part::Cut => core.truncate(8191),
    }
}

/// What marking asks of a core and a log.
#[derive(Drop)]
pub struct MarkingInput<'a> {
    pub image: Image<'a>,
    pub live: Live,
    pub roots: Roots,
}

/// Reads a core and a log, with all root words.
pub fn marking_input<'a>(
    alloc: Global,
    core: &'a [u8],
    log: &str,
) -> Result<MarkingInput<'a>, Fail> {
    let image = Image::read(alloc, core)?;
    let threads = Threads::read(alloc, &image)?;
    let log = Log::read(alloc, log.as_bytes())?;
    let live = replay(alloc, &log)?;
    let small = SmallSpans::none(alloc);
    let roots = Roots::find(alloc, &image, &threads, &live, &small, true)?;
    Ok(MarkingInput { image, live, roots })
}
