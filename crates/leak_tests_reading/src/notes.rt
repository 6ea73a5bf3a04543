//! Threads and their registers.

use crate::comparisons::{print, same, same_in};
use crate::cores::{BytesAt, WordsAt, changed};
use leak_elf::Image;
use leak_notes::{NoteError, Threads};
use std::alloc::Global;
use std::process::Abort;
use std::test::Fail;

/// The fields and the name of a thread status.
pub(crate) const STATUS: &[u8] = b"\x05\0\0\0\x50\x01\0\0\x01\0\0\0CORE\0\0\0\0";

/// Why the notes of the core are refused.
fn refusal(alloc: Global, core: &[u8]) -> Result<Option<NoteError>, Fail> {
    let image = Image::read(alloc, core)?;
    Ok(Threads::read(alloc, &image).err())
}

/// Words and bytes of the sample that are replaced, and why its notes are refused.
pub(crate) type Refusal = (WordsAt<'static>, BytesAt<'static>, Option<NoteError>);

/// Why the notes of the sample are refused.
fn refusal_of(alloc: Global, row: &Refusal) -> Result<Option<NoteError>, Fail> {
    let core = changed(alloc, row.0, row.1)?;
    refusal(alloc, core.as_slice())
}

/// Ends the test if the notes of one of the cores are refused for another reason, and prints its number.
pub(crate) fn are_refused(rt: &impl Abort, alloc: Global, rows: &[Refusal]) -> Result<(), Fail> {
    for (i, row) in rows.iter().enumerate() {
        same_in(rt, &i, refusal_of(alloc, row)?, row.2);
    }
    Ok(())
}

/// Ends the test if the core has another number of threads, or other registers.
fn has(
    rt: &impl Abort,
    alloc: Global,
    core: &[u8],
    count: usize,
    registers: &[u64],
) -> Result<(), Fail> {
    let image = Image::read(alloc, core)?;
    let threads = Threads::read(alloc, &image)?;
    same(rt, threads.count(), count);
    same(rt, threads.registers(), registers);
    Ok(())
}

/// Ends the test if the sample, once words and bytes are replaced, has another number of threads, or other registers.
pub(crate) fn has_registers(
    rt: &impl Abort,
    alloc: Global,
    words: WordsAt,
    bytes: BytesAt,
    count: usize,
    registers: &[u64],
) -> Result<(), Fail> {
    let core = changed(alloc, words, bytes)?;
    has(rt, alloc, core.as_slice(), count, registers)
}

#[test]
fn the_sample_has_one_thread_of_zero_registers(rt: HostRuntime) -> Result<(), Fail> {
    has_registers(&rt, rt.alloc(), &[], &[], 1, &[0; 27])
}

/// Sizes of the part of notes.
static SIZES: [Refusal; 3] = [
    (&[(96, 300)], &[], Some(NoteError::Cut(176))),
    // Four bytes are left after the first entry.
    (&[(96, 360)], &[], Some(NoteError::Cut(532))),
    // Twelve zero bytes are an entry, of another type.
    (&[(96, 368)], &[], None),
];

#[test]
fn an_entry_that_passes_the_end_of_its_part_is_cut_off(rt: HostRuntime) -> Result<(), Fail> {
    are_refused(&rt, rt.alloc(), &SIZES)
}

/// A second entry, of another type, whose descriptor has one byte.
const ENTRY: (usize, &[u8]) = (532, &[0, 0, 0, 0, 1, 0, 0, 0, 9, 0, 0, 0, 7]);

/// One whose name has one byte, and no descriptor follows.
const NAMED: (usize, &[u8]) = (532, &[1, 0, 0, 0, 0, 0, 0, 0, 9, 0, 0, 0, 65]);

/// Sizes of the part of notes, of which the first entry has 356 bytes, with a second entry.
static LAST: [Refusal; 6] = [
    (&[(96, 356 + 13)], &[ENTRY], None),
    (&[(96, 356 + 15)], &[ENTRY], None),
    (&[(96, 356 + 16)], &[ENTRY], None),
    (&[(96, 356 + 17)], &[ENTRY], Some(NoteError::Cut(548))),
    // The padding of a name may not be missing, even if no descriptor follows.
    (&[(96, 356 + 13)], &[NAMED], Some(NoteError::Cut(532))),
    (&[(96, 356 + 16)], &[NAMED], None),
];

#[test]
fn the_padding_of_the_last_descriptor_may_be_missing(rt: HostRuntime) -> Result<(), Fail> {
    are_refused(&rt, rt.alloc(), &LAST)
}

/// A thread status of 332 bytes.
static STATUS_SIZE: [Refusal; 1] = [(
    &[(96, 352)],
    &[(180, &[0x4c, 1, 0, 0])],
    Some(NoteError::StatusSize(176)),
)];

#[test]
fn a_thread_status_of_another_size_is_refused(rt: HostRuntime) -> Result<(), Fail> {
    are_refused(&rt, rt.alloc(), &STATUS_SIZE)
}

/// Cores of which no entry is a thread status.
static OTHERS: [Refusal; 4] = [
    (&[], &[(184, &[6])], Some(NoteError::NoThread)),
    // The name of another entry, with its size.
    (
        &[],
        &[(176, &[6]), (188, b"LINUX\0")],
        Some(NoteError::NoThread),
    ),
    (&[(96, 0)], &[], Some(NoteError::NoThread)),
    // The header of the part is of another type.
    (&[], &[(64, &[0])], Some(NoteError::NoThread)),
];

#[test]
fn other_entries_are_skipped(rt: HostRuntime) -> Result<(), Fail> {
    are_refused(&rt, rt.alloc(), &OTHERS)
}

#[test]
fn the_registers_of_each_thread_stand_in_order(rt: HostRuntime) -> Result<(), Fail> {
    // rbx of the first thread, then r15 and rbx of the second, whose entry follows.
    let words = [(96, 712), (348, 0x10100), (664, 0x10200), (704, 0x10300)];
    let mut registers = [0u64; 54];
    registers[5] = 0x10100;
    registers[27] = 0x10200;
    registers[32] = 0x10300;
    has_registers(&rt, rt.alloc(), &words, &[(532, STATUS)], 2, &registers)
}

#[test]
fn the_parts_are_read_in_the_order_of_the_headers(rt: HostRuntime) -> Result<(), Fail> {
    // Three headers: the first names the second entry, at 1000, and the third the first, at 600.
    let words = [
        (56, 3),
        (72, 1000),
        (176, 4),
        (184, 600),
        (192, 0),
        (200, 0),
        (208, 356),
        (732, 600),
        (1132, 1000),
    ];
    let mut registers = [0u64; 54];
    registers[0] = 1000;
    registers[27] = 600;
    let entries: [(usize, &[u8]); 2] = [(600, STATUS), (1000, STATUS)];
    has_registers(&rt, rt.alloc(), &words, &entries, 2, &registers)
}

/// A core of five thousand threads. Its part of notes follows the segment.
fn of_many_threads(alloc: Global) -> Result<Vec<u8>, Fail> {
    let mut core = changed(alloc, &[(72, 8192), (96, 5_000 * 356)], &[])?;
    for _ in 0..5_000 {
        core.extend_from_slice(STATUS)?;
        core.extend_from_slice(&[0; 336])?;
    }
    Ok(core)
}

/// How many threads and registers the core has.
fn counts(alloc: Global, core: &[u8]) -> Result<(usize, usize), Fail> {
    let image = Image::read(alloc, core)?;
    let threads = Threads::read(alloc, &image)?;
    Ok((threads.count(), threads.registers().len()))
}

#[test]
fn a_core_of_many_threads_is_read(rt: HostRuntime) -> Result<(), Fail> {
    let core = of_many_threads(rt.alloc())?;
    let found = counts(rt.alloc(), core.as_slice())?;
    same(&rt, found, (5_000, 135_000));
    Ok(())
}

static TEXTS: [(NoteError, &str); 5] = [
    (NoteError::Cut(176), "note at 176 is cut off"),
    (
        NoteError::StatusSize(176),
        "thread status at 176 has a wrong size",
    ),
    (
        NoteError::VectorSize(532),
        "vector registers at 532 have a wrong size",
    ),
    (NoteError::NoThread, "no thread status"),
    (NoteError::NoMemory, "out of memory"),
];

#[test]
fn each_reason_has_its_text(rt: HostRuntime) -> Result<(), Fail> {
    print(&rt, rt.alloc(), &TEXTS)
}
