//! Vector registers.

use crate::comparisons::same;
use crate::cores::changed;
use crate::notes::{Refusal, STATUS, are_refused, has_registers};
use leak_elf::Image;
use leak_notes::{NoteError, RegisterSet, register_sets};
use std::alloc::Global;
use std::test::Fail;

/// The fields and the name of a vector entry.
const VECTOR: &[u8] = b"\x05\0\0\0\0\x02\0\0\x02\0\0\0CORE\0\0\0\0";

/// The size of a part of notes of a thread status and a vector entry.
const BOTH: (usize, u64) = (96, 888);

/// A vector entry after the thread status of the sample: st0 to st7 and xmm0 to xmm15 are from 584 to 968.
const SECOND: (usize, &[u8]) = (532, VECTOR);

#[test]
fn a_vector_entry_has_48_words_and_is_no_thread(rt: HostRuntime) -> Result<(), Fail> {
    has_registers(&rt, rt.alloc(), &[BOTH], &[SECOND], 1, &[0; 75])
}

/// File offsets of words in a vector entry, and the numbers of the registers that have them: 75 if none has.
static HALVES: [(usize, usize); 12] = [
    // The lower and the upper half of st0, and the upper one of st7.
    (584, 27),
    (592, 28),
    (704, 42),
    // The lower and the upper half of xmm0, those of xmm1 and xmm15.
    (712, 43),
    (720, 44),
    (728, 45),
    (736, 46),
    (952, 73),
    (960, 74),
    // The control words, and what follows xmm15.
    (576, 75),
    (968, 75),
    (1056, 75),
];

#[test]
fn the_words_are_those_of_st0_to_st7_and_xmm0_to_xmm15(rt: HostRuntime) -> Result<(), Fail> {
    for &(at, number) in &HALVES {
        let mut wanted = [0u64; 75];
        if let Some(place) = wanted.get_mut(number) {
            *place = 0x10100;
        }
        let words = [BOTH, (at, 0x10100)];
        has_registers(&rt, rt.alloc(), &words, &[SECOND], 1, &wanted)?;
    }
    Ok(())
}

#[test]
fn the_words_stand_in_the_order_of_the_entries(rt: HostRuntime) -> Result<(), Fail> {
    // The vector entry at 176, its status after it at 708; then a second status at 1064.
    let words = [
        (96, 532 + 356 + 356),
        (176 + 20 + 160, 1),
        (708 + 20 + 112, 2),
        (1064 + 20 + 112, 3),
    ];
    let entries: [(usize, &[u8]); 4] = [
        (176, VECTOR),
        (532, &[0; 20]),
        (708, STATUS),
        (1064, STATUS),
    ];
    let mut wanted = [0u64; 102];
    wanted[16] = 1;
    wanted[48] = 2;
    wanted[75] = 3;
    has_registers(&rt, rt.alloc(), &words, &entries, 2, &wanted)
}

const VECTOR_SIZE: Option<NoteError> = Some(NoteError::VectorSize(532));

/// Vector entries of another size, which is at 536.
static WRONG: [Refusal; 6] = [
    (&[(96, 884)], &[SECOND, (536, &[0xfc, 1])], VECTOR_SIZE),
    (&[(96, 892)], &[SECOND, (536, &[4, 2])], VECTOR_SIZE),
    (&[(96, 376)], &[SECOND, (536, &[0, 0])], VECTOR_SIZE),
    // Before that there is no thread status, and after a status of another size.
    (
        &[(96, 884)],
        &[SECOND, (536, &[0xfc, 1]), (184, &[6])],
        VECTOR_SIZE,
    ),
    (
        &[(96, 884)],
        &[SECOND, (536, &[0xfc, 1]), (180, &[0x4d, 1])],
        Some(NoteError::StatusSize(176)),
    ),
    // One that is cut off is that first.
    (
        &[(96, 887)],
        &[SECOND, (536, &[4, 2])],
        Some(NoteError::Cut(532)),
    ),
];

#[test]
fn a_vector_entry_of_another_size_is_refused(rt: HostRuntime) -> Result<(), Fail> {
    are_refused(&rt, rt.alloc(), &WRONG)
}

static ALONE: [Refusal; 2] = [
    (&[BOTH], &[SECOND, (184, &[6])], Some(NoteError::NoThread)),
    // A thread status whose type is that of a vector entry.
    (&[], &[(184, &[2])], Some(NoteError::VectorSize(176))),
];

#[test]
fn vector_entries_alone_are_no_thread(rt: HostRuntime) -> Result<(), Fail> {
    are_refused(&rt, rt.alloc(), &ALONE)
}

#[test]
fn an_entry_of_another_name_is_skipped(rt: HostRuntime) -> Result<(), Fail> {
    let words = [BOTH, (720, 0x10100)];
    let bytes: [(usize, &[u8]); 3] = [SECOND, (532, &[6]), (544, b"LINUX\0")];
    has_registers(&rt, rt.alloc(), &words, &bytes, 1, &[0; 27])
}

/// The kinds of the entries of the sample core with a vector entry.
fn sets(alloc: Global) -> Result<Vec<RegisterSet>, Fail> {
    let core = changed(alloc, &[BOTH], &[SECOND])?;
    let image = Image::read(alloc, core.as_slice())?;
    Ok(register_sets(alloc, &image)?)
}

#[test]
fn sets_are_in_the_order_of_the_entries(rt: HostRuntime) -> Result<(), Fail> {
    let found = sets(rt.alloc())?;
    let both = [RegisterSet::Status, RegisterSet::Vector];
    same(&rt, found.as_slice(), both.as_slice());
    Ok(())
}
