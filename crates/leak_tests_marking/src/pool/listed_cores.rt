//! Marking and heads over a listing, without the core of which it was made.

use crate::comparisons::{same, same_lists};
use crate::pool::samples::claim_count;
use crate::samples::{core_of, sample_of};
use leak_index::{Reading, Sorted};
use leak_pool::{
    EdgeRoom, Listing, Marked, Open, Plan, heads_by_edges, list_core, mark_by_listing, share_of,
};
use leak_team::Team;
use std::alloc::AllocGlobal;
use std::process::Abort;
use std::test::Fail;
use std::thread::Threads;

/// Five blocks. Two root words lead to the first, whose words lead to itself and to the second; the third and the fourth
/// lead to each other and to the fifth, and no root word to them.
const WORDS: [(u64, u64); 8] = [
    (0x10008, 0x10100),
    (0x10010, 0x10108),
    (0x10100, 0x10100),
    (0x10108, 0x10200),
    (0x10300, 0x10400),
    (0x10308, 0x10500),
    (0x10400, 0x10300),
    (0x10408, 0x10500),
];

const LOG: &str =
    "+ 0x10100 0x10\n+ 0x10200 0x10\n+ 0x10300 0x10\n+ 0x10400 0x10\n+ 0x10500 0x10\n";

/// Lists the five blocks of a core that is gone when this returns.
fn listed<R: AllocGlobal + Threads + Sync>(
    rt: &R,
    workers: u32,
    room: EdgeRoom,
) -> Result<Option<Listing>, Fail> {
    let alloc = rt.alloc();
    let core = core_of(alloc, &WORDS)?;
    let sample = sample_of(alloc, core.as_slice(), LOG)?;
    let lookup = Sorted::new(&sample.live, Reading::interior());
    let team = Team { rt, alloc, workers };
    if workers == 0 {
        return Ok(None);
    }
    let (roots, live, share) = (&sample.roots, &sample.live, share_of(room, workers));
    Ok(list_core(&team, &sample.image, &lookup, roots, live, share)?)
}

/// Ends the test unless the first two blocks are marked, each claimed once.
fn are_two_marked<R: Abort>(rt: &R, marked: &Marked, workers: usize) {
    let wanted = [true, true, false, false, false];
    same(rt, marked.set.as_slice(), wanted.as_slice());
    same(rt, claim_count(marked), 2);
    same(rt, marked.claims.len(), workers);
}

#[test]
fn what_roots_lead_to_is_marked_when_the_core_is_gone(rt: HostRuntime) -> Result<(), Fail> {
    let alloc = rt.alloc();
    for workers in [1, 2, 4] {
        let Some(listing) = listed(&rt, workers, EdgeRoom::of_size(4096))? else {
            assert!(rt; false);
            return Ok(());
        };
        let plan = Plan::new(workers, 512, 0)?;
        let marked = mark_by_listing(&rt, alloc, &listing, plan, &Open)?;
        are_two_marked(&rt, &marked, workers as usize);
    }
    Ok(())
}

#[test]
fn one_worker_claims_in_the_order_of_the_words(rt: HostRuntime) -> Result<(), Fail> {
    let alloc = rt.alloc();
    let Some(listing) = listed(&rt, 1, EdgeRoom::of_size(4096))? else {
        assert!(rt; false);
        return Ok(());
    };
    let marked = mark_by_listing(&rt, alloc, &listing, Plan::new(1, 512, 16)?, &Open)?;
    let claims: [&[u32]; 1] = [&[0, 1]];
    same_lists(&rt, marked.claims.as_slice(), claims.as_slice());
    same(&rt, marked.rounds, 1);
    Ok(())
}

#[test]
fn leaked_blocks_in_a_ring_are_no_heads(rt: HostRuntime) -> Result<(), Fail> {
    let alloc = rt.alloc();
    let Some(listing) = listed(&rt, 2, EdgeRoom::of_size(4096))? else {
        assert!(rt; false);
        return Ok(());
    };
    if leak_without::HasEdges::blocks(&listing) != 5 {
        assert!(rt; false);
        return Ok(());
    }
    let heads = heads_by_edges(alloc, &listing, &[true, true, false, false, false])?;
    same(&rt, heads.as_slice(), [false; 5].as_slice());
    let heads = heads_by_edges(alloc, &listing, &[false, true, true, false, true])?;
    same(
        &rt,
        heads.as_slice(),
        [true, false, false, true, false].as_slice(),
    );
    Ok(())
}

#[test]
fn no_listing_is_made_over_the_room(rt: HostRuntime) -> Result<(), Fail> {
    assert!(rt; listed(&rt, 1, EdgeRoom::of_size(5 * 32))?.is_none());
    assert!(rt; listed(&rt, 1, EdgeRoom::of_size(6 * 32))?.is_some());
    Ok(())
}
