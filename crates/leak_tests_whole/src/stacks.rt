//! Rounds of marking, by the number of entries in a worker's stack.

use crate::claims::hold_each_once;
use crate::comparisons::{same, same_in};
use crate::hundreds::{chain, star};
use crate::marking::{LONG, alone, by_plan, long_chain, marked_count};
use leak_pool::{Open, Plan};
use std::test::Fail;

#[test]
fn one_thread_makes_a_round_for_each_block_of_a_chain(rt: HostRuntime) -> Result<(), Fail> {
    let marked = alone(rt.alloc(), &chain(rt.alloc())?)?;
    same(&rt, marked.set.len(), 100);
    same(&rt, marked_count(&marked), 100);
    assert!(rt; hold_each_once(rt.alloc(), marked.claims.as_slice(), 100)?);
    same(&rt, marked.rounds, 101);
    Ok(())
}

#[test]
fn one_thread_makes_four_rounds_of_a_star(rt: HostRuntime) -> Result<(), Fail> {
    let marked = alone(rt.alloc(), &star(rt.alloc())?)?;
    same(&rt, marked_count(&marked), 101);
    same(&rt, marked.rounds, 4);
    Ok(())
}

#[test]
fn a_stack_follows_a_chain_in_the_first_round(rt: HostRuntime) -> Result<(), Fail> {
    let sample = chain(rt.alloc())?;
    for workers in [1, 2, 3, 64] {
        for piece in [1, 65_536] {
            for (stack, rounds) in [(0, 101), (1, 1), (65_536, 1)] {
                let plan = Plan::new(workers, piece, stack)?;
                let marked = by_plan(&rt, rt.alloc(), &sample, plan, &Open)?;
                same_in(&rt, &plan, marked_count(&marked), 100);
                same_in(&rt, &plan, marked.claims.len(), workers as usize);
                let claims = marked.claims.as_slice();
                assert!(rt; hold_each_once(rt.alloc(), claims, 100)?, "by {plan:?}");
                same_in(&rt, &plan, marked.rounds, rounds);
            }
        }
    }
    Ok(())
}

#[test]
fn a_stack_follows_a_star_as_far_as_it_has_room(rt: HostRuntime) -> Result<(), Fail> {
    let sample = star(rt.alloc())?;
    for workers in [1, 2, 3, 64] {
        for piece in [1, 65_536] {
            // Of the fifty, a stack of one entry takes the first and leaves the others for the second round. The
            // caller scans one of these; the block that it claims waits for the third.
            for (stack, rounds) in [(0, 4), (1, 3), (65_536, 1)] {
                let plan = Plan::new(workers, piece, stack)?;
                let marked = by_plan(&rt, rt.alloc(), &sample, plan, &Open)?;
                same_in(&rt, &plan, marked_count(&marked), 101);
                let claims = marked.claims.as_slice();
                assert!(rt; hold_each_once(rt.alloc(), claims, 101)?, "by {plan:?}");
                same_in(&rt, &plan, marked.rounds, rounds);
            }
        }
    }
    Ok(())
}

#[test]
fn whoever_scans_the_root_of_a_star_claims_all_of_it(rt: HostRuntime) -> Result<(), Fail> {
    let sample = star(rt.alloc())?;
    for workers in [2, 3, 64] {
        for piece in [1, 65_536] {
            let plan = Plan::new(workers, piece, 65_536)?;
            let marked = by_plan(&rt, rt.alloc(), &sample, plan, &Open)?;
            let mut whole = 0u32;
            let mut empty = 0u32;
            for list in marked.claims.as_slice() {
                match list.len() {
                    0 => empty = empty.wrapping_add(1),
                    101 => whole = whole.wrapping_add(1),
                    _ => {}
                }
            }
            same_in(&rt, &plan, whole, 1);
            same_in(&rt, &plan, empty, workers - 1);
        }
    }
    Ok(())
}

#[test]
fn a_chain_of_over_a_thousand_blocks(rt: HostRuntime) -> Result<(), Fail> {
    let sample = long_chain(rt.alloc())?;
    let marked = alone(rt.alloc(), &sample)?;
    same(&rt, marked_count(&marked), LONG as usize);
    same(&rt, marked.rounds, LONG + 1);
    for (workers, stack, rounds) in [(1, 0, LONG + 1), (4, 0, LONG + 1), (1, 1, 1), (4, 1, 1)] {
        let plan = Plan::new(workers, 512, stack)?;
        let marked = by_plan(&rt, rt.alloc(), &sample, plan, &Open)?;
        same_in(&rt, &plan, marked_count(&marked), LONG as usize);
        same_in(&rt, &plan, marked.rounds, rounds);
    }
    Ok(())
}
