//! Marking by edges, with room for all of them, for fewer, and for none: the same marks, claims and rounds.

use crate::claims::hold_each_once;
use crate::comparisons::{same, same_in};
use crate::hundreds::{Sample, chain, star};
use crate::marking::{by_edges, marked_count};
use crate::samples::core_of;
use leak_pool::Plan;
use std::test::Fail;

#[test]
fn edges_of_a_chain(rt: HostRuntime) -> Result<(), Fail> {
    let sample = chain(rt.alloc())?;
    // The chain has 99 edges.
    for room in [0, 98, 99, 10_000] {
        for (workers, stack, rounds) in [(1, 0, 101), (1, 1, 1), (3, 0, 101), (64, 65_536, 1)] {
            let plan = Plan::new(workers, 1, stack)?;
            let marked = by_edges(&rt, rt.alloc(), &sample, plan, room)?;
            same_in(&rt, &(room, plan), marked_count(&marked), 100);
            same_in(&rt, &(room, plan), marked.claims.len(), workers as usize);
            let claims = marked.claims.as_slice();
            assert!(rt;
                hold_each_once(rt.alloc(), claims, 100)?,
                "{room} by {plan:?}"
            );
            same_in(&rt, &(room, plan), marked.rounds, rounds);
        }
    }
    Ok(())
}

#[test]
fn edges_of_a_star(rt: HostRuntime) -> Result<(), Fail> {
    let sample = star(rt.alloc())?;
    // Fifty of its hundred edges are of one block, so with more than two workers they fit if a share of the room is fifty.
    for room in [0, 100, 150, 6_400] {
        for (workers, stack, rounds) in [(1, 0, 4), (1, 1, 3), (3, 1, 3), (64, 65_536, 1)] {
            let plan = Plan::new(workers, 65_536, stack)?;
            let marked = by_edges(&rt, rt.alloc(), &sample, plan, room)?;
            same_in(&rt, &(room, plan), marked_count(&marked), 101);
            let claims = marked.claims.as_slice();
            assert!(rt;
                hold_each_once(rt.alloc(), claims, 101)?,
                "{room} by {plan:?}"
            );
            same_in(&rt, &(room, plan), marked.rounds, rounds);
        }
    }
    Ok(())
}

#[test]
fn edges_of_no_block(rt: HostRuntime) -> Result<(), Fail> {
    let sample = Sample {
        core: core_of(rt.alloc(), &[])?,
        log: String::new(rt.alloc()),
    };
    for workers in [1, 64] {
        let plan = Plan::new(workers, 512, 1024)?;
        let marked = by_edges(&rt, rt.alloc(), &sample, plan, 1000)?;
        assert!(rt; marked.set.is_empty());
        same(&rt, marked.claims.len(), workers as usize);
        same(&rt, marked.rounds, 0);
    }
    Ok(())
}
