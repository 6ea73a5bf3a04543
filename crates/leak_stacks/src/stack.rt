//! The stack of a thread, by the thread's own record.

ghost use Rattle.std.specs.Prelude.{◌≡◌, ◌+◌, ◌≤◌, ◌<◌, ◌%◌, ◌^◌, IfSome};
ghost use Rattle.leak_elf.specs.Words.{word_of};
ghost use Rattle.leak_stacks.specs.Stacks.{IsNextBelow, is_stack, own_stack, stack_at, told_alone, told_more};

use leak_elf::{Image, Rest, Words};
use leak_notes::StackRegisters;

/// How many bytes from fs_base on are looked at: a thread's record in glibc takes fewer.
const RECORD_SIZE: u64 = 4096;

/// How many bytes above fs_base a stack may end.
const ABOVE_RECORD: u64 = 8192;

/// A stack.
#[derive(Clone, Copy, Debug, PartialEq, Eq)]
pub struct Stack {
    /// Its first address.
    pub begin: u64,
    /// How many addresses it has.
    pub size: u64,
}

/// Stacks that pairs of words told of, one after another.
#[derive(Clone, Copy)]
struct Told {
    /// The last of them.
    last: Option<Stack>,
    /// Whether another came before it.
    many: bool,
}

/// The least address from `from` on that has a word, if it is one of the addresses from `begin` on, of which there are `size`.
pub(crate) fn next_below<R: Rest>(
    image: &Image<'_, R>,
    from: u64,
    begin: u64,
    size: u64,
) -> Option<u64>
    requires { begin ≤ from }
    ensures least { IsNextBelow (word_of image.now) from (begin + size) result }
    ensures place { IfSome result (λ place. (place % 8 ≡ 0) × (place + 8 ≤ 2 ^ 64)) }
{
    let place = image.next(from)?;
    if place - begin < size {
        Some(place)
    } else {
        None
    }
}

/// The word this many bytes above the address. Beyond the last address there is none.
pub(crate) fn word_above<R: Rest>(image: &Image<'_, R>, place: u64, distance: u64) -> Option<u64>
    ensures { result ≡ word_of image.now (place + distance) }
{
    match place.checked_add(distance) {
        Some(addr) => image.word(addr),
        None => image.next(u64::MAX),
    }
}

/// Whether a stack that begins at the address and has the size is the thread's. Nothing is added, so nothing wraps.
fn is_stack(thread: &StackRegisters, begin: u64, size: u64) -> bool
    ensures { result ≡ is_stack thread.now begin size }
{
    if begin == 0 || thread.sp < begin || thread.fs_base <= thread.sp || thread.fs_base <= size {
        return false;
    }
    let below = thread.fs_base - begin;
    below < size && size - below <= ABOVE_RECORD
}

/// The stack that the word at the address and the next word tell of, if they tell of one.
fn stack_at<R: Rest>(image: &Image<'_, R>, thread: &StackRegisters, place: u64) -> Option<Stack>
    ensures { result ≡ stack_at (word_of image.now) thread.now place }
{
    let begin = image.word(place)?;
    if begin == 0 || thread.sp < begin {
        return None;
    }
    let size = word_above(image, place, 8)?;
    if is_stack(thread, begin, size) {
        Some(Stack { begin, size })
    } else {
        None
    }
}

/// Adds a stack that a pair of words tells of, if it tells of one.
fn told_more(told: Told, stack: Option<Stack>) -> Told
    ensures { result ≡ told_more told stack }
{
    match stack {
        Some(_) => Told {
            last: stack,
            many: told.many || told.last.is_some(),
        },
        None => told,
    }
}

/// The stack that was told of, if no other was.
fn told_alone(told: Told) -> Option<Stack>
    ensures { result ≡ told_alone told }
{
    if told.many { None } else { told.last }
}

/// The stack that the thread's own record tells of, if one pair of words there does so alone.
pub(crate) fn own_stack<R: Rest>(image: &Image<'_, R>, thread: &StackRegisters) -> Option<Stack>
    ensures { result ≡ own_stack (word_of image.now) thread.now }
{
    let mut told = Told {
        last: None,
        many: false,
    };
    let mut from = thread.fs_base;
    while let Some(place) = next_below(image, from, thread.fs_base, RECORD_SIZE) {
        told = told_more(told, stack_at(image, thread, place));
        from = place.saturating_add(8);
    }
    told_alone(told)
}
