//! The dead words of the threads of a core.

ghost use Rattle.std.specs.Prelude.{◌≡◌, ◌≤◌, ◌^◌, [], IfOk, IfSome};
ghost use Rattle.std.specs.List.{cons_option};
ghost use Rattle.leak_elf.specs.Words.{word_of};
ghost use Rattle.leak_blocks.specs.Small.{AreSpans, CoverSame};
ghost use Rattle.leak_stacks.specs.Stacks.{Has};
ghost use Rattle.leak_stacks.specs.Dead.{dead_from, dead_of, dead_spans_of, take, words_within};

use crate::first::{First, first_in, stack_of};
use crate::low::low_of;
use crate::stack::Stack;
use leak_blocks::{SmallSpans, Span, joined};
use leak_elf::{Image, Rest};
use leak_notes::{StackRegisters, stack_registers};
use std::alloc::{AllocError, Global};

/// How many bytes of stacks in use are looked at: 256 MiB.
const ROOM: u64 = 1 << 28;

/// The whole words from one address on up to another.
fn words_within(begin: u64, low: u64) -> Option<Span>
    ensures value { result ≡ words_within begin low }
    ensures some { IfSome result (λ span. span.first ≤ span.last) }
{
    let first = begin.div_ceil(8);
    let after = low / 8;
    if first < after {
        Some(Span {
            first: 8 * first,
            last: 8 * after - 1,
        })
    } else {
        None
    }
}

/// The dead words of a thread with this stack.
fn dead_of<R: Rest>(image: &Image<'_, R>, stack: &Stack, thread: &StackRegisters) -> Option<Span>
    requires { Has stack.now thread.now.sp }
    ensures value { result ≡ dead_of (word_of image.now) stack.now thread.now }
    ensures some { IfSome result (λ span. span.first ≤ span.last) }
{
    words_within(stack.begin, low_of(image, stack, thread))
}

/// The dead words of a thread, if there is room for it.
fn take<R: Rest>(
    image: &Image<'_, R>,
    first: Option<First>,
    room: &mut u64,
    thread: &StackRegisters,
) -> Option<Span>
    ensures room { room.new ≡ (take (word_of image.now) first room.old thread.now).0 }
    ensures value { cons_option result [] ≡ (take (word_of image.now) first room.old thread.now).1 }
    ensures some { IfSome result (λ span. span.first ≤ span.last) }
{
    let stack = stack_of(image, first, thread)?;
    let in_use = stack.size - (thread.sp - stack.begin);
    if in_use <= *room {
        *room -= in_use;
        dead_of(image, &stack, thread)
    } else {
        None
    }
}

/// The dead words of threads, one after another.
fn dead_from<R: Rest>(
    alloc: Global,
    image: &Image<'_, R>,
    first: Option<First>,
    threads: &[StackRegisters],
) -> Result<Vec<Span>, AllocError>
    ensures value { IfOk result (λ spans.
        spans.items ≡ dead_from (word_of image.now) first (2 ^ 28) threads.now) }
    ensures each { IfOk result (λ spans. AreSpans spans.items) }
{
    let mut spans = Vec::new(alloc);
    let mut room = ROOM;
    for thread in threads {
        if let Some(span) = take(image, first, &mut room, thread) {
            spans.push(span)?;
        }
    }
    Ok(spans)
}

/// The dead words of a core, as ranges: what lies in the stacks of its threads below what their functions use.
///
/// It takes 16 bytes for each thread, and 24 while the notes are read. It reads each word of a stack from the stack pointer on
/// once for each thread that has the stack, of at most 256 MiB of stacks in use.
pub fn dead_spans<R: Rest>(alloc: Global, image: &Image<'_, R>) -> Result<SmallSpans, AllocError>
    ensures { IfOk result (λ spans. CoverSame spans (dead_spans_of image.now)) }
{
    let threads = stack_registers(alloc, image)?;
    let first = first_in(alloc, image)?;
    let spans = dead_from(alloc, image, first, &threads)?;
    joined(alloc, spans)
}
