//! Dead stack, and root words without it.

use crate::chunks::core_with;
use crate::comparisons::same;
use leak_blocks::{SmallSpans, replay};
use leak_elf::Image;
use leak_mtrace::Log;
use leak_notes::{StackRegisters, Threads, random_address, stack_registers};
use leak_roots::Roots;
use leak_stacks::dead_spans;
use std::alloc::Global;
use std::test::Fail;

/// Sets the word at the file offset.
fn set(core: &mut Vec<u8>, at: usize, word: u64) {
    for (place, byte) in core.iter_mut().skip(at).zip(&word.to_le_bytes()) {
        *place = *byte;
    }
}

/// The sample core whose thread has its stack in the segment, is in no system call, and has an auxiliary vector.
fn core_with_stack(alloc: Global) -> Result<Vec<u8>, Fail> {
    let mut core = core_with(alloc, &[(0x10f10, 0x10000), (0x10f18, 0x1000)])?;
    set(&mut core, 96, 392);
    set(&mut core, 428, u64::MAX);
    set(&mut core, 460, 0x10800);
    set(&mut core, 476, 0x10f00);
    set(&mut core, 532, 0x0000_0010_0000_0005);
    set(&mut core, 540, 0x4552_4f43_0000_0006);
    set(&mut core, 552, 25);
    set(&mut core, 560, 0x10ff0);
    Ok(core)
}

#[test]
fn notes_tell_of_stacks(rt: HostRuntime) -> Result<(), Fail> {
    let core = core_with_stack(rt.alloc())?;
    let image = Image::read(rt.alloc(), core.as_slice())?;
    let threads = stack_registers(rt.alloc(), &image)?;
    let wanted = [StackRegisters {
        sp: 0x10800,
        fs_base: 0x10f00,
        call: u64::MAX,
    }];
    same(&rt, threads.as_slice(), wanted.as_slice());
    same(&rt, random_address(rt.alloc(), &image)?, Some(0x10ff0));
    Ok(())
}

/// The red zone of 128 bytes stays.
#[test]
fn places_in_dead_stack_are_no_roots(rt: HostRuntime) -> Result<(), Fail> {
    let core = core_with_stack(rt.alloc())?;
    let image = Image::read(rt.alloc(), core.as_slice())?;
    let threads = Threads::read(rt.alloc(), &image)?;
    let log = Log::read(rt.alloc(), b"+ 0x10100 0x20\n")?;
    let live = replay(rt.alloc(), &log)?;
    let small = SmallSpans::none(rt.alloc());
    let all = Roots::find(rt.alloc(), &image, &threads, &live, &small, true)?;
    same(&rt, all.dead(), 0);
    let dead = dead_spans(rt.alloc(), &image)?;
    let without = all.skip_dead(rt.alloc(), dead.ranges())?;
    same(&rt, without.memory(), [(0x10780, 0x11000)].as_slice());
    same(&rt, without.registers().len(), 27);
    same(&rt, without.dead(), 236);
    same(&rt, without.freed(), 0);
    Ok(())
}
