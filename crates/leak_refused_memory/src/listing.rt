//! The calls that list what words lead to, and those that go over the lists alone.

use crate::answer::Answer;
use crate::marking::{are_all_marked, marking_input};
use crate::samples::{core_of, live_of, star};
use leak_blocks::SmallSpans;
use leak_elf::Image;
use leak_index::{Reading, Sorted};
use leak_notes::Threads;
use leak_pool::{
    EdgeRoom, Listing, Open, Plan, PoolError, find_leading_roots, heads_by_edges, list_core,
    mark_by_listing, share_of,
};
use leak_roots::Exclusions;
use leak_team::Team;
use std::alloc::Global;

/// `find_leading_roots` of a core of whose words one leads to a block.
pub(crate) fn leading(alloc: Global) -> Option<Answer> {
    let core = core_of(alloc, &[(0x10008, 0x10200)])?;
    let image = Image::read(alloc, core.as_slice()).ok()?;
    let live = live_of(alloc, "+ 0x10200 0x10\n")?;
    let threads = Threads::read(alloc, &image).ok()?;
    let lookup = Sorted::new(&live, Reading::interior());
    let small = SmallSpans::none(alloc);
    let excluded = Exclusions {
        small: &small,
        unwritable: true,
    };
    match find_leading_roots(alloc, &image, &threads, &live, &excluded, &lookup) {
        Ok(roots) => Some(Answer::of(roots.memory() == [(0x10000u64, 0x10200u64)].as_slice())),
        Err(_) => Some(Answer::Wanting),
    }
}

/// A star, listed by three workers, with room for its edges.
fn list_star<R: AllocGlobal + std::thread::Threads + Sync>(
    rt: &R,
) -> Option<Result<Option<Listing>, PoolError>> {
    let alloc = rt.alloc();
    let sample = star(alloc)?;
    let input = marking_input(alloc, sample.core.as_slice(), sample.log.as_str())?;
    let lookup = Sorted::new(&input.live, Reading::interior());
    let team = Team {
        rt,
        alloc,
        workers: 3,
    };
    let share = share_of(EdgeRoom::of_core(&[0u8; 32_000]), 3);
    Some(list_core(
        &team,
        &input.image,
        &lookup,
        &input.roots,
        &input.live,
        share,
    ))
}

/// `list_core` of a star.
pub(crate) fn listed<R: AllocGlobal + std::thread::Threads + Sync>(rt: &R) -> Option<Answer> {
    match list_star(rt)? {
        Ok(listing) => Some(Answer::of(listing.is_some())),
        Err(error) => Some(Answer::of_refusal(error == PoolError::NoMemory)),
    }
}

/// `mark_by_listing` of a star.
pub(crate) fn marked<R: AllocGlobal + std::thread::Threads + Sync>(rt: &R) -> Option<Answer> {
    let listing = list_star(rt)?.ok()??;
    let plan = Plan::new(3, 16, 4).ok()?;
    match mark_by_listing(rt, rt.alloc(), &listing, plan, &Open) {
        Ok(marked) => Some(Answer::of(are_all_marked(&marked, 101))),
        Err(_) => Some(Answer::Wanting),
    }
}

/// `heads_by_edges` of a star of which no block is marked: the first block leads to all others.
pub(crate) fn headed<R: AllocGlobal + std::thread::Threads + Sync>(rt: &R) -> Option<Answer> {
    let alloc = rt.alloc();
    let listing = list_star(rt)?.ok()??;
    let set = vec![in alloc; false; leak_without::HasEdges::blocks(&listing) as usize].ok()?;
    match heads_by_edges(alloc, &listing, set.as_slice()) {
        Ok(heads) => Some(Answer::of(
            heads.len() == 101 && heads[0] && !heads.iter().skip(1).any(|head| *head),
        )),
        Err(_) => Some(Answer::Wanting),
    }
}
