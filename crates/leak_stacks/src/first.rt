//! The first stack, and the stack of a thread.

ghost use Rattle.std.specs.Prelude.{◌≡◌, IfOk, IfSome};
ghost use Rattle.leak_elf.specs.Words.{word_of};
ghost use Rattle.leak_stacks.specs.Stacks.{Has, first_at, first_in, has_address, if_first, stack_of};

use crate::stack::{Stack, own_stack};
use leak_elf::{Image, Rest, Segment};
use leak_notes::{StackRegisters, random_address};
use std::alloc::{AllocError, Global};

/// The first stack.
#[derive(Clone, Copy)]
pub(crate) struct First {
    /// The segment that has AT_RANDOM.
    pub stack: Stack,
    /// AT_RANDOM. What is above it is the kernel's.
    pub random: u64,
}

/// Whether the segment has the address.
fn has_address(segment: &Segment, addr: u64) -> bool
    ensures { result ≡ has_address addr segment.now }
{
    segment.vaddr <= addr && addr - segment.vaddr < segment.memsz
}

/// The first of the segments that has AT_RANDOM, as a stack.
fn first_at(segments: &[Segment], random: u64) -> Option<First>
    ensures { result ≡ first_at segments.now random }
{
    for segment in segments {
        if has_address(segment, random) {
            return Some(First {
                stack: Stack {
                    begin: segment.vaddr,
                    size: segment.memsz,
                },
                random,
            });
        }
    }
    None
}

/// The first stack of a core.
pub(crate) fn first_in<R: Rest>(
    alloc: Global,
    image: &Image<'_, R>,
) -> Result<Option<First>, AllocError>
    ensures { IfOk result (λ first. first ≡ first_in image.now) }
{
    match random_address(alloc, image)? {
        Some(random) => Ok(first_at(image.segments(), random)),
        None => Ok(None),
    }
}

/// The first stack, if the thread's stack pointer is in it and below AT_RANDOM.
fn if_first(thread: &StackRegisters, first: Option<First>) -> Option<Stack>
    ensures value { result ≡ if_first thread.now first }
    ensures has { IfSome result (λ stack. Has stack thread.now.sp) }
{
    let first = first?;
    let stack = first.stack;
    if stack.begin <= thread.sp
        && thread.sp - stack.begin < stack.size
        && thread.sp < first.random
    {
        Some(stack)
    } else {
        None
    }
}

/// The stack of a thread: by its own record, else the first one.
pub(crate) fn stack_of<R: Rest>(
    image: &Image<'_, R>,
    first: Option<First>,
    thread: &StackRegisters,
) -> Option<Stack>
    ensures value { result ≡ stack_of (word_of image.now) first thread.now }
    ensures has { IfSome result (λ stack. Has stack thread.now.sp) }
{
    match own_stack(image, thread) {
        Some(stack) => Some(stack),
        None => if_first(thread, first),
    }
}
