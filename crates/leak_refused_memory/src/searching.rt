//! The calls that make a search's lookup and roots.

use crate::answer::Answer;
use crate::samples::{ONE_BLOCK, core_of, live_of, stack_core};
use leak_blocks::{Live, SmallSpans, Span, replay, small_spans};
use leak_elf::Image;
use leak_index::{Hits, Lookup, Paged, Reading, Sorted};
use leak_mtrace::Log;
use leak_notes::Threads;
use leak_pool::leading_roots;
use leak_roots::{CutError, Piece, Roots};
use leak_stacks::dead_spans;
use leak_team::Team;
use std::alloc::{AllocError, Global};

/// `Paged::new` over four blocks that touch.
pub(crate) fn paged(alloc: Global) -> Option<Answer> {
    let live = live_of(
        alloc,
        "+ 0x100 0x10\n+ 0x110 0\n+ 0x111 0xf\n+ 0x130 0x10\n",
    )?;
    match Paged::new(alloc, &live, Reading::interior()) {
        Ok(lookup) => Some(Answer::of(
            lookup.hits(0x110) == Hits::Two(0, 1) && lookup.hits(0x121) == Hits::Zero,
        )),
        Err(_) => Some(Answer::Wanting),
    }
}

/// What `Roots::find` answers of a core, outside these blocks and freed spans.
pub(crate) fn find_roots(
    alloc: Global,
    image: &Image,
    live: &Live,
    freed: &SmallSpans,
) -> Option<Result<Roots, AllocError>> {
    let threads = Threads::read(alloc, image).ok()?;
    Some(Roots::find(alloc, image, &threads, live, freed, true))
}

/// The root words of a core outside the blocks of a log.
fn roots_of(alloc: Global, core: &[u8], log: &str) -> Option<Roots> {
    let image = Image::read(alloc, core).ok()?;
    let live = live_of(alloc, log)?;
    find_roots(alloc, &image, &live, &SmallSpans::none(alloc))?.ok()
}

/// `Roots::find` of the sample core without a block.
pub(crate) fn roots(alloc: Global) -> Option<Answer> {
    let core = core_of(alloc, &[])?;
    let image = Image::read(alloc, core.as_slice()).ok()?;
    let live = live_of(alloc, "")?;
    match find_roots(alloc, &image, &live, &SmallSpans::none(alloc))? {
        Ok(roots) => Some(Answer::of(
            roots.registers().len() == 27
                && roots.memory() == [(0x10000u64, 0x11000u64)].as_slice(),
        )),
        Err(_) => Some(Answer::Wanting),
    }
}

/// `Roots::find` of the sample core without a block that was given back.
pub(crate) fn unfreed_roots(alloc: Global) -> Option<Answer> {
    let core = core_of(alloc, &[])?;
    let image = Image::read(alloc, core.as_slice()).ok()?;
    let (live, freed) = given_back(alloc)?;
    match find_roots(alloc, &image, &live, &freed)? {
        Ok(roots) => Some(Answer::of(
            roots.freed() == 4
                && roots.memory() == [(0x10000u64, 0x10100u64), (0x10120, 0x11000)].as_slice(),
        )),
        Err(_) => Some(Answer::Wanting),
    }
}

/// No block, and the span of one that was given back.
fn given_back(alloc: Global) -> Option<(Live, SmallSpans)> {
    let log = Log::read(alloc, b"+ 0x10100 0x20\n- 0x10100\n").ok()?;
    let live = replay(alloc, &log).ok()?;
    Some((live, small_spans(alloc, &log).ok()?))
}

/// `Roots::skip_slack` of the sample core with a block of 8 bytes, whose slack has two words.
pub(crate) fn unslacked_roots(alloc: Global) -> Option<Answer> {
    let core = core_of(alloc, &[])?;
    let roots = roots_of(alloc, core.as_slice(), "+ 0x10100 0x8\n")?;
    let slack = [Span {
        first: 0x10108,
        last: 0x10117,
    }];
    match roots.skip_slack(alloc, slack.as_slice()) {
        Ok(roots) => Some(Answer::of(
            roots.memory() == [(0x10000u64, 0x10100u64), (0x10118, 0x11000)].as_slice(),
        )),
        Err(_) => Some(Answer::Wanting),
    }
}

/// `dead_spans` of the sample core with a stack.
pub(crate) fn dead_stack(alloc: Global) -> Option<Answer> {
    let core = stack_core(alloc)?;
    let image = Image::read(alloc, core.as_slice()).ok()?;
    let dead = [Span {
        first: 0x10000,
        last: 0x107ff,
    }];
    match dead_spans(alloc, &image) {
        Ok(spans) => Some(Answer::of(spans.ranges() == dead.as_slice())),
        Err(_) => Some(Answer::Wanting),
    }
}

/// `Roots::skip_dead` of that core with a block.
pub(crate) fn undead_roots(alloc: Global) -> Option<Answer> {
    let core = stack_core(alloc)?;
    let roots = roots_of(alloc, core.as_slice(), ONE_BLOCK)?;
    let dead = [Span {
        first: 0x10000,
        last: 0x107ff,
    }];
    match roots.skip_dead(alloc, dead.as_slice()) {
        Ok(roots) => Some(Answer::of(
            roots.dead() == 252 && roots.memory() == [(0x10800u64, 0x11000u64)].as_slice(),
        )),
        Err(_) => Some(Answer::Wanting),
    }
}

/// How many words the pieces hold.
fn words_in(pieces: &[Piece]) -> u64 {
    let mut words = 0u64;
    for piece in pieces {
        let count = match *piece {
            Piece::Registers(from, to) => to.saturating_sub(from) as u64,
            Piece::Memory(from, to) => to.saturating_sub(from) / 8,
        };
        words = words.wrapping_add(count);
    }
    words
}

/// The root words of the sample core with a block.
fn roots_outside(alloc: Global) -> Option<Roots> {
    let core = core_of(alloc, &[])?;
    roots_of(alloc, core.as_slice(), "+ 0x10100 0x20\n")
}

/// `cut` of these roots.
pub(crate) fn cut(alloc: Global) -> Option<Answer> {
    let roots = roots_outside(alloc)?;
    match roots.cut(alloc, 10) {
        Ok(pieces) => Some(Answer::of(words_in(pieces.as_slice()) == 535)),
        Err(error) => Some(Answer::of_refusal(error == CutError::NoMemory)),
    }
}

/// `pieces` of these roots: 3 of the registers, 4 before the block and 48 after it.
pub(crate) fn pieces(alloc: Global) -> Option<Answer> {
    let roots = roots_outside(alloc)?;
    match roots.pieces(alloc, 10) {
        Ok(pieces) => Some(Answer::of(
            pieces.len() == 55 && pieces.at(54) == Piece::Memory(0x10fd0, 0x11000),
        )),
        Err(error) => Some(Answer::of_refusal(error == CutError::NoMemory)),
    }
}

/// `leading_roots` of a core of whose words one leads to a block.
pub(crate) fn leading<R: AllocGlobal + std::thread::Threads + Sync>(rt: &R) -> Option<Answer> {
    let alloc = rt.alloc();
    let core = core_of(alloc, &[(0x10008, 0x10200)])?;
    let image = Image::read(alloc, core.as_slice()).ok()?;
    let live = live_of(alloc, "+ 0x10200 0x10\n")?;
    let roots = find_roots(alloc, &image, &live, &SmallSpans::none(alloc))?.ok()?;
    let lookup = Sorted::new(&live, Reading::interior());
    let team = Team {
        rt,
        alloc,
        workers: 2,
    };
    match leading_roots(&team, &image, &lookup, roots, &live) {
        Ok(roots) => Some(Answer::of(roots.memory() == [(0x10000u64, 0x10200u64)].as_slice())),
        Err(_) => Some(Answer::Wanting),
    }
}
