//! A core with vector registers.

use crate::comparisons::same;
use crate::samples::{Part, core_of, marking_input, set};
use leak_elf::Image;
use leak_notes::Threads;
use std::test::Fail;

/// The fields and the name of a vector entry.
const VECTOR: &[u8] = b"\x05\0\0\0\0\x02\0\0\x02\0\0\0CORE\0\0\0\0";

#[test]
fn vector_registers_are_root_words(rt: HostRuntime) -> Result<(), Fail> {
    // A vector entry after the thread status.
    let mut core = core_of(rt.alloc(), &[Part::Notes(888)])?;
    set(&mut core, 532, VECTOR);
    let image = Image::read(rt.alloc(), core.as_slice())?;
    let threads = Threads::read(rt.alloc(), &image)?;
    same(&rt, threads.count(), 1);
    same(&rt, threads.registers(), [0u64; 75].as_slice());
    let roots = marking_input(rt.alloc(), core.as_slice(), "")?.roots;
    let mut words = roots.registers().len() as u64;
    for (from, to) in roots.memory() {
        words = words.saturating_add(to.saturating_sub(*from) / 8);
    }
    same(&rt, words, 587);
    Ok(())
}
