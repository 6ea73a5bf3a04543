//! State entries.

use crate::comparisons::same;
use crate::cores::changed;
use crate::notes::has_registers;
use leak_elf::Image;
use leak_notes::{RegisterSet, register_sets};
use std::test::Fail;

/// A state entry's size of its name, and its name, after the thread status of the sample.
const STATE: [(usize, &[u8]); 2] = [(532, b"\x06\0\0\0"), (544, b"LINUX\0")];

/// Sizes of the descriptor, which begins at 552, and of the part of notes; the file offset of a word; how many registers there are,
/// and the number of the one that has the word, or that number if none has.
static PLACES: [(u64, u64, usize, usize, usize); 6] = [
    // The first and the last word of a processor that has AVX-512, and the end of the header.
    (2696, 3072, 552 + 576, 292, 27),
    (2696, 3072, 552 + 2688, 292, 291),
    (2696, 3072, 552 + 568, 292, 292),
    // One word, and no complete one.
    (590, 966, 552 + 584, 28, 28),
    (580, 956, 552 + 576, 27, 27),
    (0, 376, 552, 27, 27),
];

/// The sizes of the part of notes and of the descriptor, the latter with the entry's type after it.
fn sizes(size: u64, part: u64) -> [(usize, u64); 2] {
    [(96, part), (536, 0x202_0000_0000 | size)]
}

#[test]
fn a_state_entry_has_the_words_that_stand_whole_behind_its_header(
    rt: HostRuntime,
) -> Result<(), Fail> {
    for &(size, part, at, count, number) in &PLACES {
        let mut wanted = Vec::new(rt.alloc());
        wanted.resize(count, 0)?;
        if let Some(place) = wanted.get_mut(number) {
            *place = 0x10100;
        }
        let [notes, desc] = sizes(size, part);
        has_registers(
            &rt,
            rt.alloc(),
            &[notes, desc, (at, 0x10100)],
            &STATE,
            1,
            wanted.as_slice(),
        )?;
    }
    Ok(())
}

#[test]
fn a_state_entry_is_a_set_of_its_words(rt: HostRuntime) -> Result<(), Fail> {
    let core = changed(rt.alloc(), &sizes(2696, 3072), &STATE)?;
    let image = Image::read(rt.alloc(), core.as_slice())?;
    let found = register_sets(rt.alloc(), &image)?;
    let both = [RegisterSet::Status, RegisterSet::State(265)];
    same(&rt, found.as_slice(), both.as_slice());
    Ok(())
}
