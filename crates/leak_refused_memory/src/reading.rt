//! The calls that read cores and logs.

use crate::answer::Answer;
use crate::samples::{FOUR_CALLERS, core_of, set, vector_core};
use leak_blocks::{Live, SmallSpans, replay, replay_bytes, replay_with_spans, small_spans};
use leak_elf::{ElfError, Image, core_k};
use leak_mtrace::{Log, LogError};
use leak_notes::{NoteError, Threads};
use std::alloc::Global;

/// `core_k` with one word.
pub(crate) fn sample(alloc: Global) -> Option<Answer> {
    let wanted = core_of(alloc, &[(0x10008, 0x10100)])?;
    match core_k(alloc, &[(0x10008, 0x10100)]) {
        Ok(core) => Some(Answer::of(core == wanted)),
        Err(_) => Some(Answer::Wanting),
    }
}

/// `Image::read` of a core with a second segment, of which nothing is dumped.
pub(crate) fn image(alloc: Global) -> Option<Answer> {
    let mut core = core_of(alloc, &[])?;
    // The part of notes becomes a segment, whose contents are said to be past the end of the file.
    set(&mut core, 64, &1u32.to_le_bytes());
    set(&mut core, 68, &6u32.to_le_bytes());
    set(&mut core, 72, &1_000_000u64.to_le_bytes());
    set(&mut core, 80, &0x11000u64.to_le_bytes());
    set(&mut core, 96, &0u64.to_le_bytes());
    set(&mut core, 104, &0x1000u64.to_le_bytes());
    match Image::read(alloc, core.as_slice()) {
        Ok(image) => Some(Answer::of(image.segments().len() == 2 && image.undumped() == 4096)),
        Err(error) => Some(Answer::of_refusal(error == ElfError::NoMemory)),
    }
}

/// `Threads::read` of the sample core.
pub(crate) fn threads(alloc: Global) -> Option<Answer> {
    let core = core_of(alloc, &[])?;
    let image = Image::read(alloc, core.as_slice()).ok()?;
    match Threads::read(alloc, &image) {
        Ok(threads) => Some(Answer::of(threads.count() == 1 && threads.registers().len() == 27)),
        Err(error) => Some(Answer::of_refusal(error == NoteError::NoMemory)),
    }
}

/// `Threads::read` of a core with vector registers.
pub(crate) fn vectors(alloc: Global) -> Option<Answer> {
    let core = vector_core(alloc)?;
    let image = Image::read(alloc, core.as_slice()).ok()?;
    match Threads::read(alloc, &image) {
        Ok(threads) => Some(Answer::of(threads.count() == 1 && threads.registers().len() == 75)),
        Err(error) => Some(Answer::of_refusal(error == NoteError::NoMemory)),
    }
}

/// `Log::read` of four lines.
pub(crate) fn log(alloc: Global) -> Option<Answer> {
    match Log::read(alloc, FOUR_CALLERS.as_bytes()) {
        Ok(log) => Some(Answer::of(log.lines().len() == 4 && log.torn() == 0)),
        Err(error) => Some(Answer::of_refusal(error == LogError::NoMemory)),
    }
}

/// Three allocations, of which the last ends both others.
const DISPLACED: &str = "+ 0x100 0x10\n+ 0x120 0x10\n+ 0x108 0x20\n";

/// Whether these are the live blocks of that log.
fn are_displaced(live: &Live) -> bool {
    let last = live.blocks().first().map(|block| (block.start, block.size));
    live.blocks().len() == 1 && last == Some((0x108, 32)) && live.displaced() == 2
}

/// `replay` of that log.
pub(crate) fn replayed(alloc: Global) -> Option<Answer> {
    let log = Log::read(alloc, DISPLACED.as_bytes()).ok()?;
    match replay(alloc, &log) {
        Ok(live) => Some(Answer::of(are_displaced(&live))),
        Err(_) => Some(Answer::Wanting),
    }
}

/// `replay_bytes` of the same.
pub(crate) fn replayed_bytes(alloc: Global) -> Option<Answer> {
    match replay_bytes(alloc, DISPLACED.as_bytes()) {
        Ok(replayed) => Some(Answer::of(are_displaced(&replayed.live))),
        Err(error) => Some(Answer::of_refusal(error == LogError::NoMemory)),
    }
}

/// Three allocations, of which two touch.
const TOUCHING: &str = "+ 0x110 0x10\n+ 0x200 0x8\n+ 0x100 0x10\n- 0x100\n";

/// Whether these are so many ranges, of which the first has the addresses of the two that touch.
fn are_touching(spans: &SmallSpans, ranges: usize) -> bool {
    let first = spans.ranges().first().map(|span| (span.first, span.last));
    spans.ranges().len() == ranges && first == Some((0x100, 0x11f))
}

/// The same, but both that touch are given back.
pub(crate) const GIVEN_BACK: &str = "+ 0x110 0x10\n+ 0x200 0x8\n+ 0x100 0x10\n- 0x100\n- 0x110\n";

/// `replay_with_spans` of that log, whose live block has no span.
pub(crate) fn spanned(alloc: Global) -> Option<Answer> {
    match replay_with_spans(alloc, GIVEN_BACK.as_bytes()) {
        Ok((replayed, spans)) => {
            let live = replayed.live.blocks().len();
            Some(Answer::of(live == 1 && are_touching(&spans, 1)))
        }
        Err(error) => Some(Answer::of_refusal(error == LogError::NoMemory)),
    }
}

/// `small_spans` of the log of which one is given back.
pub(crate) fn small(alloc: Global) -> Option<Answer> {
    let log = Log::read(alloc, TOUCHING.as_bytes()).ok()?;
    match small_spans(alloc, &log) {
        Ok(spans) => Some(Answer::of(are_touching(&spans, 2))),
        Err(_) => Some(Answer::Wanting),
    }
}
