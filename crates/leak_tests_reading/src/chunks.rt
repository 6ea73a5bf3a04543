//! Blocks that fit the heap of a core.

use crate::comparisons::{same, same_in};
use leak_blocks::replay;
use leak_chunks::fits;
use leak_elf::{Image, core_k};
use leak_mtrace::Log;
use std::alloc::Global;
use std::test::Fail;

/// The address of a word of the sample's segment, less its file offset.
const SHIFT: u64 = 0xf000;

/// The bytes of the sample core with the words set.
pub(crate) fn core_with(alloc: Global, words: &[(u64, u64)]) -> Result<Vec<u8>, Fail> {
    let mut core = core_k(alloc, &[])?;
    for (addr, word) in words {
        let at = addr.saturating_sub(SHIFT) as usize;
        for (place, byte) in core.iter_mut().skip(at).zip(&word.to_le_bytes()) {
            *place = *byte;
        }
    }
    Ok(core)
}

/// Which blocks of a log fit the sample core with the words set.
fn fits_with(alloc: Global, log: &str, words: &[(u64, u64)]) -> Result<Vec<bool>, Fail> {
    let core = core_with(alloc, words)?;
    let image = Image::read(alloc, core.as_slice())?;
    let lines = Log::read(alloc, log.as_bytes())?;
    let live = replay(alloc, &lines)?;
    Ok(fits(alloc, &image, &live)?)
}

/// A block of 32 bytes at 0x10100, its size word and the one that follows its chunk.
#[test]
fn size_words_of_one_block(rt: HostRuntime) -> Result<(), Fail> {
    let cases = [
        (0x31, (0x10128, 0x21), true),
        (0x41, (0x10138, 0x1), true),
        (0x51, (0x10148, 0x1), true),
        (0x61, (0x10158, 0x1), false),
        (0x21, (0x10118, 0x1), false),
        // the next chunk says that this one is free
        (0x31, (0x10128, 0x20), false),
        // of another arena, or with the chunk before it free
        (0x35, (0x10128, 0x1), true),
        (0x30, (0x10128, 0x1), true),
        // mappings, which no chunk follows
        (0x1002, (0x10128, 0), true),
        (0x32, (0x10128, 0), true),
        (0x22, (0x10128, 0), false),
        (0x1032, (0x10128, 0), true),
        (0x1042, (0x10128, 0), false),
        // a core of zeros
        (0, (0x10128, 0), false),
    ];
    for (size_word, next, fit) in cases {
        let words = [(0x100f8, size_word), next];
        let found = fits_with(rt.alloc(), "+ 0x10100 0x20\n", &words)?;
        same_in(&rt, &size_word, found.as_slice(), [fit].as_slice());
    }
    Ok(())
}

/// Other blocks: their log, the size words, and whether they fit.
#[test]
fn size_words_of_other_blocks(rt: HostRuntime) -> Result<(), Fail> {
    let cases = [
        // the size word would be before the segment
        ("+ 0x10000 0x8\n", [(0x10018, 1), (0x10008, 0x21)], [false]),
        // not at a multiple of 16
        ("+ 0x10108 0x8\n", [(0x10100, 0x21), (0x10120, 1)], [false]),
        // the next size word would be after the segment
        ("+ 0x10ff0 0x8\n", [(0x10fe8, 0x21), (0x10ff8, 1)], [false]),
        ("+ 0x10fe0 0x8\n", [(0x10fd8, 0x21), (0x10ff8, 1)], [true]),
        // the least chunk has 32 bytes
        ("+ 0x10100 0\n", [(0x100f8, 0x21), (0x10118, 1)], [true]),
        ("+ 0x10100 0\n", [(0x100f8, 0x11), (0x10108, 1)], [false]),
        // a block ends in the next chunk's first word
        ("+ 0x10100 0x18\n", [(0x100f8, 0x21), (0x10118, 1)], [true]),
        ("+ 0x10100 0x19\n", [(0x100f8, 0x21), (0x10118, 1)], [false]),
        // the first address of all that a block can have
        ("+ 0x8 0x8\n", [(0x10000, 0x21), (0x10018, 1)], [false]),
    ];
    for (log, words, fit) in cases {
        let found = fits_with(rt.alloc(), log, &words)?;
        same_in(&rt, &log, found.as_slice(), fit.as_slice());
    }
    Ok(())
}

#[test]
fn no_sum_passes_the_end_of_the_address_space(rt: HostRuntime) -> Result<(), Fail> {
    let cases = [
        // a mapping, and a chunk, that no block of the size has
        ("+ 0x10100 0xfffffffffffefeff\n", 0xffff_ffff_ffff_fffa),
        ("+ 0x10100 0xfffffffffffefeff\n", 0xffff_ffff_ffff_fff9),
        // the next size word would be the last word of all
        ("+ 0x10100 0xfffffffffffefed8\n", 0xffff_ffff_fffe_ff01),
        // and after the last address
        ("+ 0x10100 0xfffffffffffefeff\n", 0xffff_ffff_fffe_ff11),
        ("+ 0x10100 0xfffffffffffefeff\n", 0xffff_ffff_fffe_ff31),
    ];
    for (log, size_word) in cases {
        let words = [(0x100f8, size_word), (0x10000, 1), (0x10008, 1)];
        let found = fits_with(rt.alloc(), log, &words)?;
        same_in(&rt, &size_word, found.as_slice(), [false].as_slice());
    }
    Ok(())
}

#[test]
fn each_block_fits_or_not(rt: HostRuntime) -> Result<(), Fail> {
    let words = [(0x100f8, 0x31), (0x10128, 0x21), (0x10148, 0x20)];
    let log = "+ 0x10130 0x18\n+ 0x10100 0x20\n+ 0x10200 0x8\n";
    let found = fits_with(rt.alloc(), log, &words)?;
    same(&rt, found.as_slice(), [true, false, false].as_slice());
    let none = fits_with(rt.alloc(), "", &words)?;
    same(&rt, none.len(), 0);
    Ok(())
}
