//! The calls that mark.

use crate::answer::Answer;
use crate::samples::{MOVED, Sample, TWO_BLOCKS, chain, core_of, live_of, star};
use crate::searching::find_roots;
use leak_blocks::{Live, SmallSpans};
use leak_elf::Image;
use leak_index::{Reading, Sorted};
use leak_later::{Carry, Retraced, carry, differing, retrace};
use leak_marks::{Claims, Marks};
use leak_pool::{
    EdgeRoom, Marked, Open, Part, Plan, PoolError, Start, mark, mark_alone, mark_by_edges,
    mark_from,
};
use leak_roots::Roots;
use leak_scan::{Pages, heads};
use std::alloc::Global;

/// `Claims::new`, and attempts of two workers.
pub(crate) fn claims(alloc: Global) -> Option<Answer> {
    match Claims::new(alloc, 3, 2) {
        Ok(mut claims) => {
            let won = claims.attempt(0, 1);
            let lost = !claims.attempt(1, 1);
            let other = claims.attempt(1, 0);
            Some(Answer::of(won && lost && other && !claims.is_marked(2)))
        }
        Err(_) => Some(Answer::Wanting),
    }
}

/// `Marks::new`, and a claim.
pub(crate) fn table(alloc: Global) -> Option<Answer> {
    match Marks::new(alloc, 65) {
        Ok((marks, mut seat)) => {
            let won = marks.claim(&mut seat, 64);
            let lost = !marks.claim(&mut seat, 64);
            Some(Answer::of(won && lost))
        }
        Err(_) => Some(Answer::Wanting),
    }
}

/// `split`, and claims of both seats. If no seat can be had the first still claims.
pub(crate) fn split(alloc: Global) -> Option<Answer> {
    let (marks, mut seat) = Marks::new(alloc, 65).ok()?;
    match marks.split(&mut seat) {
        Some(mut other) => {
            let won = marks.claim(&mut other, 64);
            let lost = !marks.claim(&mut seat, 64);
            marks.join(&mut seat, other);
            Some(Answer::of(won && lost))
        }
        None => Some(Answer::of_refusal(marks.claim(&mut seat, 64))),
    }
}

/// `close` after one claim.
pub(crate) fn close(alloc: Global) -> Option<Answer> {
    let (marks, mut seat) = Marks::new(alloc, 65).ok()?;
    let won = marks.claim(&mut seat, 64);
    match marks.close(alloc, seat) {
        Ok(words) => Some(Answer::of(won && words.as_slice() == [0u64, 1].as_slice())),
        Err(_) => Some(Answer::Wanting),
    }
}

/// How often the block is on the lists.
fn times_on(lists: &[Vec<u32>], block: usize) -> u64 {
    let mut times = 0u64;
    for list in lists {
        for claimed in list.as_slice() {
            if *claimed as usize == block {
                times = times.wrapping_add(1);
            }
        }
    }
    times
}

/// Whether all of `count` blocks are marked, and each is on one list once.
pub(crate) fn are_all_marked(marked: &Marked, count: usize) -> bool {
    let is_set = marked.set.len() == count && marked.set.iter().all(|block| *block);
    is_set && (0..count).all(|block| times_on(marked.claims.as_slice(), block) == 1)
}

/// The core and the log of a sample, read.
#[derive(Drop)]
pub(crate) struct MarkingInput<'a> {
    pub(crate) image: Image<'a>,
    pub(crate) live: Live,
    pub(crate) roots: Roots,
}

pub(crate) fn marking_input<'a>(
    alloc: Global,
    core: &'a [u8],
    log: &str,
) -> Option<MarkingInput<'a>> {
    let image = Image::read(alloc, core).ok()?;
    let live = live_of(alloc, log)?;
    let roots = find_roots(alloc, &image, &live, &SmallSpans::none(alloc))?.ok()?;
    Some(MarkingInput { image, live, roots })
}

/// What marking answered, if `count` blocks are to be marked.
fn answer_of(marked: Result<Marked, PoolError>, count: usize) -> Answer {
    match marked {
        Ok(marked) => Answer::of(are_all_marked(&marked, count)),
        Err(error) => Answer::of_refusal(error == PoolError::NoMemory),
    }
}

/// Marks the sample on the caller's thread.
fn alone_on(alloc: Global, sample: &Sample, count: usize) -> Option<Answer> {
    let input = marking_input(alloc, sample.core.as_slice(), sample.log.as_str())?;
    let lookup = Sorted::new(&input.live, Reading::interior());
    let marked = mark_alone(alloc, &input.image, &lookup, &input.roots, &input.live);
    Some(answer_of(marked, count))
}

/// `mark_alone` of a chain of blocks, and of a star.
pub(crate) fn alone(alloc: Global) -> Option<Answer> {
    let first = alone_on(alloc, &chain(alloc)?, 100)?;
    Some(first.worse(alone_on(alloc, &star(alloc)?, 101)?))
}

/// Marks the sample by three workers.
fn by_workers_on<R: AllocGlobal + std::thread::Threads + Sync>(
    rt: &R,
    sample: &Sample,
    count: usize,
) -> Option<Answer> {
    let alloc = rt.alloc();
    let input = marking_input(alloc, sample.core.as_slice(), sample.log.as_str())?;
    let lookup = Sorted::new(&input.live, Reading::interior());
    let plan = Plan::new(3, 16, 4).ok()?;
    let marked = mark(
        rt,
        alloc,
        &input.image,
        &lookup,
        &input.roots,
        &input.live,
        plan,
        &Open,
    );
    Some(answer_of(marked, count))
}

/// `mark` of a chain of blocks, and of a star.
pub(crate) fn by_workers<R: AllocGlobal + std::thread::Threads + Sync>(rt: &R) -> Option<Answer> {
    let alloc = rt.alloc();
    let first = by_workers_on(rt, &chain(alloc)?, 100)?;
    Some(first.worse(by_workers_on(rt, &star(alloc)?, 101)?))
}

/// `mark_by_edges` of a star, with room for its edges.
pub(crate) fn by_edges<R: AllocGlobal + std::thread::Threads + Sync>(rt: &R) -> Option<Answer> {
    let alloc = rt.alloc();
    let sample = star(alloc)?;
    let input = marking_input(alloc, sample.core.as_slice(), sample.log.as_str())?;
    let lookup = Sorted::new(&input.live, Reading::interior());
    let plan = Plan::new(3, 16, 4).ok()?;
    let marked = mark_by_edges(
        rt,
        alloc,
        &input.image,
        &lookup,
        &input.roots,
        &input.live,
        plan,
        &Open,
        EdgeRoom::of_core(&[0u8; 32_000]),
    );
    Some(answer_of(marked, 101))
}

/// `mark_from` an empty start, which marks what `mark` does.
pub(crate) fn from_a_start<R: AllocGlobal + std::thread::Threads + Sync>(rt: &R) -> Option<Answer> {
    let alloc = rt.alloc();
    let sample = star(alloc)?;
    let input = marking_input(alloc, sample.core.as_slice(), sample.log.as_str())?;
    let lookup = Sorted::new(&input.live, Reading::interior());
    let start = Start {
        marked: Vec::new(alloc),
        rescan: Vec::new(alloc),
    };
    let pages = Pages::new(Vec::new(alloc))?;
    let plan = Plan::new(3, 16, 4).ok()?;
    let marked = mark_from(
        rt,
        alloc,
        &input.image,
        &lookup,
        &input.roots,
        &input.live,
        plan,
        &Open,
        &start,
        &pages,
    );
    Some(answer_of(marked, 101))
}

/// `differing` of two cores that differ in one word.
pub(crate) fn pages<R: AllocGlobal + std::thread::Threads + Sync>(rt: &R) -> Option<Answer> {
    let alloc = rt.alloc();
    let first = core_of(alloc, &[])?;
    let second = core_of(alloc, &[(0x10ff8, 1)])?;
    let first = Image::read(alloc, first.as_slice()).ok()?;
    let second = Image::read(alloc, second.as_slice()).ok()?;
    match differing(rt, alloc, &first, &second) {
        Ok(pages) => Some(Answer::of(pages.numbers() == [16u64].as_slice())),
        Err(_) => Some(Answer::Wanting),
    }
}

/// Whether one block is kept and one is fresh, with these numbers.
fn is_carry(carry: &Carry, kept: u32, fresh: u32) -> bool {
    carry.kept.as_slice() == [kept].as_slice() && carry.fresh.as_slice() == [fresh].as_slice()
}

/// `carry` over a log in which one of two blocks was moved, after both were marked.
pub(crate) fn carried(alloc: Global) -> Option<Answer> {
    let earlier = live_of(alloc, TWO_BLOCKS)?;
    let later = live_of(alloc, MOVED)?;
    let marked = vec![in alloc; true; earlier.blocks().len()].ok()?;
    if later.blocks().len() > u32::MAX as usize {
        return None;
    }
    match carry(alloc, &earlier, &marked, &later) {
        Ok(carry) => Some(Answer::of(is_carry(&carry, 1, 0))),
        Err(_) => Some(Answer::Wanting),
    }
}

/// Whether both blocks are marked, the second is claimed once and the first never, and none is read again.
fn is_retraced(retraced: &Retraced) -> bool {
    let claims = retraced.marked.claims.as_slice();
    retraced.marked.set.as_slice() == [true, true].as_slice()
        && times_on(claims, 1) == 1
        && times_on(claims, 0) == 0
        && retraced.reread == 0
}

/// `retrace` in a core in which a register leads to the moved block.
pub(crate) fn retraced<R: AllocGlobal + std::thread::Threads + Sync>(rt: &R) -> Option<Answer> {
    let alloc = rt.alloc();
    let core = core_of(alloc, &[(0x10100, 0x10200)])?;
    let input = marking_input(alloc, core.as_slice(), MOVED)?;
    let earlier = live_of(alloc, TWO_BLOCKS)?;
    let marked = vec![in alloc; false; earlier.blocks().len()].ok()?;
    if input.live.blocks().len() > u32::MAX as usize {
        return None;
    }
    let carried = carry(alloc, &earlier, &marked, &input.live).ok()?;
    let pages = Pages::new(Vec::new(alloc))?;
    let lookup = Sorted::new(&input.live, Reading::interior());
    let plan = Plan::new(3, 16, 4).ok()?;
    let retraced = retrace(
        rt,
        alloc,
        &input.image,
        &lookup,
        &input.roots,
        &input.live,
        &carried,
        &pages,
        plan,
        &Open,
    );
    match retraced {
        Ok(retraced) => Some(Answer::of(is_retraced(&retraced))),
        Err(error) => Some(Answer::of_refusal(error == PoolError::NoMemory)),
    }
}

/// `heads` of three lost blocks, of which the first leads to the second and to itself.
pub(crate) fn headed(alloc: Global) -> Option<Answer> {
    let core = core_of(alloc, &[(0x10100, 0x10200), (0x10108, 0x10100)])?;
    let image = Image::read(alloc, core.as_slice()).ok()?;
    let live = live_of(alloc, "+ 0x10100 0x20\n+ 0x10200 0x10\n+ 0x10300 0x8\n")?;
    let lookup = Sorted::new(&live, Reading::interior());
    let set = [false; 3];
    if live.blocks().len() != 3 {
        return Some(Answer::Other);
    }
    match heads(alloc, &image, &lookup, &live, &set) {
        Ok(heads) => Some(Answer::of(heads.as_slice() == [true, false, true].as_slice())),
        Err(_) => Some(Answer::Wanting),
    }
}
