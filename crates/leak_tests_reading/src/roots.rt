//! Root words.

use crate::comparisons::same;
use leak_blocks::{Live, SmallSpans, replay};
use leak_elf::{Image, core_k};
use leak_mtrace::Log;
use leak_notes::Threads;
use leak_roots::{Piece, Roots, Skip};
use std::alloc::Global;
use std::test::Fail;

/// The root words of a core, with the live blocks of a log, without what is left out.
fn roots_without(alloc: Global, core: &[u8], log: &[u8], skip: Skip) -> Result<Roots, Fail> {
    let image = Image::read(alloc, core)?;
    let threads = Threads::read(alloc, &image)?;
    let log = Log::read(alloc, log)?;
    let live = replay(alloc, &log)?;
    let small = skip.spans(alloc, &log)?;
    let roots = Roots::find(alloc, &image, &threads, &live, &small, skip.unwritable)?;
    Ok(roots)
}

/// The root words of a core, with the live blocks of a log.
fn roots(alloc: Global, core: &[u8], log: &[u8]) -> Result<Roots, Fail> {
    roots_without(alloc, core, log, Skip::usual())
}

/// The root words of the sample core outside freed memory.
pub(crate) fn unfreed_roots_of(alloc: Global, log: &str) -> Result<Roots, Fail> {
    let core = core_k(alloc, &[])?;
    let skip = Skip {
        freed: true,
        ..Skip::usual()
    };
    roots_without(alloc, core.as_slice(), log.as_bytes(), skip)
}

/// The root words of the sample core.
pub(crate) fn roots_of(alloc: Global, log: &[u8]) -> Result<Roots, Fail> {
    let core = core_k(alloc, &[])?;
    roots(alloc, core.as_slice(), log)
}

/// How many root words there are.
fn count(roots: &Roots) -> u64 {
    let mut words = roots.registers().len() as u64;
    for (from, to) in roots.memory() {
        words = words.saturating_add(to.saturating_sub(*from) / 8);
    }
    words
}

#[test]
fn the_sample_has_a_root_word_at_each_place(rt: HostRuntime) -> Result<(), Fail> {
    let all = roots_of(rt.alloc(), b"")?;
    same(&rt, count(&all), 539);
    same(&rt, all.registers(), [0u64; 27].as_slice());
    same(&rt, all.memory(), [(0x10000, 0x11000)].as_slice());
    Ok(())
}

#[test]
fn vector_registers_are_roots(rt: HostRuntime) -> Result<(), Fail> {
    let mut core = core_k(rt.alloc(), &[])?;
    // A vector entry after the thread status, and a word in the upper half of xmm15.
    let entry = b"\x05\0\0\0\0\x02\0\0\x02\0\0\0CORE\0\0\0\0";
    for (at, bytes) in [
        (96usize, 888u64.to_le_bytes().as_slice()),
        (532, entry.as_slice()),
        (960, 7u64.to_le_bytes().as_slice()),
    ] {
        for (place, byte) in core.iter_mut().skip(at).zip(bytes) {
            *place = *byte;
        }
    }
    let all = roots(rt.alloc(), core.as_slice(), b"")?;
    same(&rt, count(&all), 587);
    same(&rt, all.registers().get(74).copied(), Some(7));
    let pieces = all.cut(rt.alloc(), 32)?;
    same(&rt, pieces.get(0).copied(), Some(Piece::Registers(0, 32)));
    same(&rt, pieces.get(1).copied(), Some(Piece::Registers(32, 64)));
    same(&rt, pieces.get(2).copied(), Some(Piece::Registers(64, 75)));
    Ok(())
}

#[test]
fn the_registers_are_those_of_the_threads_that_are_given(rt: HostRuntime) -> Result<(), Fail> {
    let core = core_k(rt.alloc(), &[])?;
    let mut other = core_k(rt.alloc(), &[])?;
    for byte in other.iter_mut().skip(348).take(1) {
        *byte = 7;
    }
    let image = Image::read(rt.alloc(), core.as_slice())?;
    let other = Image::read(rt.alloc(), other.as_slice())?;
    let threads = Threads::read(rt.alloc(), &other)?;
    let log = Log::read(rt.alloc(), b"")?;
    let live = replay(rt.alloc(), &log)?;
    let small = SmallSpans::none(rt.alloc());
    let roots = Roots::find(rt.alloc(), &image, &threads, &live, &small, true)?;
    same(&rt, roots.registers().get(5).copied(), Some(7));
    same(&rt, roots.memory(), [(0x10000, 0x11000)].as_slice());
    Ok(())
}

#[test]
fn the_roots_say_whether_links_are_left_out(rt: HostRuntime) -> Result<(), Fail> {
    let all = roots_of(rt.alloc(), b"+ 0x10100 0x20\n")?;
    same(&rt, all.skips_links(), false);
    let without = all.skip_links(true);
    same(&rt, without.skips_links(), true);
    same(&rt, count(&without), 535);
    same(&rt, without.freed(), 0);
    same(&rt, without.skip_links(false).skips_links(), false);
    Ok(())
}

#[test]
fn the_words_of_a_block_are_no_roots(rt: HostRuntime) -> Result<(), Fail> {
    let without = roots_of(rt.alloc(), b"+ 0x10100 0x20\n")?;
    same(&rt, count(&without), 535);
    same(
        &rt,
        without.memory(),
        [(0x10000, 0x10100), (0x10120, 0x11000)].as_slice(),
    );
    Ok(())
}

#[test]
fn a_word_that_a_block_has_a_byte_of_is_no_root(rt: HostRuntime) -> Result<(), Fail> {
    let one_byte = roots_of(rt.alloc(), b"+ 0x10107 0x1\n")?;
    same(
        &rt,
        one_byte.memory(),
        [(0x10000, 0x10100), (0x10108, 0x11000)].as_slice(),
    );
    let two_words = roots_of(rt.alloc(), b"+ 0x10107 0x2\n")?;
    same(
        &rt,
        two_words.memory(),
        [(0x10000, 0x10100), (0x10110, 0x11000)].as_slice(),
    );
    Ok(())
}

#[test]
fn a_block_of_no_bytes_hides_no_word(rt: HostRuntime) -> Result<(), Fail> {
    let all = roots_of(rt.alloc(), b"+ 0x10100 0\n+ 0x10204 0\n")?;
    same(&rt, all.memory(), [(0x10000, 0x11000)].as_slice());
    Ok(())
}

#[test]
fn blocks_may_touch_and_pass_the_ends_of_the_segment(rt: HostRuntime) -> Result<(), Fail> {
    let log = b"+ 0xff00 0x108\n+ 0x10010 0x8\n+ 0x10018 0x10\n+ 0x10ff4 0x100\n+ 0x20000 0x8\n";
    let rest = roots_of(rt.alloc(), log)?;
    same(
        &rt,
        rest.memory(),
        [(0x10008, 0x10010), (0x10028, 0x10ff0)].as_slice(),
    );
    let none = roots_of(rt.alloc(), b"+ 0x8000 0x10000\n")?;
    same(&rt, none.memory().len(), 0);
    Ok(())
}

#[test]
fn a_segment_that_is_not_writable_has_no_roots(rt: HostRuntime) -> Result<(), Fail> {
    let mut core = core_k(rt.alloc(), &[])?;
    for flags in core.iter_mut().skip(124).take(1) {
        *flags = 4;
    }
    let registers = roots(rt.alloc(), core.as_slice(), b"")?;
    same(&rt, registers.registers().len(), 27);
    same(&rt, registers.memory().len(), 0);
    Ok(())
}

#[test]
fn a_segment_that_is_not_writable_has_roots_where_it_is_not_left_out(
    rt: HostRuntime,
) -> Result<(), Fail> {
    let all = Skip {
        unwritable: false,
        ..Skip::usual()
    };
    for rights in [0, 4, 6] {
        let mut core = core_k(rt.alloc(), &[])?;
        for flags in core.iter_mut().skip(124).take(1) {
            *flags = rights;
        }
        let roots = roots_without(rt.alloc(), core.as_slice(), b"+ 0x10100 0x20\n", all)?;
        same(&rt, count(&roots), 535);
        same(
            &rt,
            roots.memory(),
            [(0x10000, 0x10100), (0x10120, 0x11000)].as_slice(),
        );
    }
    Ok(())
}
