//! The lowest address of a stack that its functions use.

ghost use Rattle.std.specs.Prelude.{◌≡◌, ◌≤◌, ◌%◌, ◌+◌, ◌^◌};
ghost use Rattle.leak_elf.specs.Words.{word_of};
ghost use Rattle.leak_stacks.specs.Stacks.{Has};
ghost use Rattle.leak_stacks.specs.Lows.{are_flags, flags_in, frame_at, is_frame, low_of, lower, red_low};

use crate::stack::{Stack, next_below, word_above};
use leak_elf::{Image, Rest, Words};
use leak_notes::StackRegisters;

/// How many bytes below rsp a function that calls no other may use (System V ABI for x86-64, 3.2.2).
const RED_ZONE: u64 = 128;

/// orig_rax is at least this number if a thread is in no system call.
const NO_CALL: u64 = 1 << 63;

/// The flag SS_AUTODISARM of an alternate signal stack (Linux, sigaltstack(2)).
const AUTO_DISARM: u64 = 0x8000_0000;

/// How far above the words of an alternate stack a signal frame has the rsp that it returns to (Linux, `struct ucontext`).
const OLD_RSP_AT: u64 = 144;

/// The flags of an alternate stack are an int: of their word the kernel writes only the bytes below this.
const FLAGS_END: u64 = 1 << 32;

/// An alternate signal stack, as a signal frame has it (Linux, `stack_t`), and the rsp that the frame returns to.
#[derive(Clone, Copy)]
struct SignalFrame {
    begin: u64,
    flags: u64,
    size: u64,
    old: u64,
}

/// The stack pointer less the red zone, if there is one: a thread in a system call has none.
fn red_low(thread: &StackRegisters) -> u64
    ensures { result ≡ red_low thread.now }
{
    if thread.call < NO_CALL {
        thread.sp
    } else {
        thread.sp.saturating_sub(RED_ZONE)
    }
}

/// Whether a signal frame may have such flags: none, SS_ONSTACK or SS_DISABLE, also with SS_AUTODISARM.
fn are_flags(flags: u64) -> bool
    ensures { result ≡ are_flags flags }
{
    flags < 3 || (AUTO_DISARM <= flags && flags < AUTO_DISARM + 3)
}

/// Whether the words at the place are of a signal frame of this stack. Nothing is added, so nothing wraps.
fn is_frame(stack: &Stack, sp: u64, place: u64, frame: &SignalFrame) -> bool
    ensures { result ≡ is_frame stack.now sp place frame.now.begin frame.now.flags frame.now.size frame.now.old }
{
    if place < frame.begin || frame.begin < stack.begin {
        return false;
    }
    let into = frame.begin - stack.begin;
    if frame.size <= place - frame.begin || stack.size < into || stack.size - into < frame.size {
        return false;
    }
    are_flags(frame.flags % FLAGS_END) && stack.begin <= frame.old && frame.old < sp
}

/// How low functions go by the signal frame at the place, if there is one.
fn frame_at<R: Rest>(image: &Image<'_, R>, stack: &Stack, sp: u64, place: u64) -> Option<u64>
    ensures { result ≡ frame_at (word_of image.now) stack.now sp place }
{
    let begin = image.word(place)?;
    if place < begin || begin < stack.begin {
        return None;
    }
    let flags = word_above(image, place, 8)?;
    let size = word_above(image, place, 16)?;
    let old = word_above(image, place, OLD_RSP_AT)?;
    let frame = SignalFrame {
        begin,
        flags,
        size,
        old,
    };
    if is_frame(stack, sp, place, &frame) {
        Some(old.saturating_sub(RED_ZONE))
    } else {
        None
    }
}

/// The lower of the two, if there is another.
fn lower(low: u64, other: Option<u64>) -> u64
    ensures { result ≡ lower low other }
{
    match other {
        Some(other) => low.min(other),
        None => low,
    }
}

/// The lowest address that functions use: by the stack pointer, and by each signal frame from it on.
pub(crate) fn low_of<R: Rest>(image: &Image<'_, R>, stack: &Stack, thread: &StackRegisters) -> u64
    requires { Has stack.now thread.now.sp }
    ensures { result ≡ low_of (word_of image.now) stack.now thread.now }
{
    let mut low = red_low(thread);
    let mut from = thread.sp;
    while let Some(place) = next_below(image, from, stack.begin, stack.size) {
        low = lower(low, frame_at(image, stack, thread.sp, place));
        from = place.saturating_add(8);
    }
    low
}
