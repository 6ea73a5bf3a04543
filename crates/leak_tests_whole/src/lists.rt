//! Lists of claims are those of the workers that claimed: no list is dealt out afterwards.

use crate::samples::{MarkingInput, Part, core_of, marking_input};
use crate::searches::{by_plan, of_two};
use leak_index::{Reading, Sorted};
use leak_pool::{Open, Plan, mark};
use std::test::Fail;

/// A word in the first half of the roots leads to the first block, and the last word of all to the second.
const APART: [Part; 2] = [Part::Word(0x10000, 0x10100), Part::Word(0x10ff8, 0x10200)];

/// The two blocks.
const BLOCKS: &str = "+ 0x10100 0x20\n+ 0x10200 0x10\n";

/// Whether the first worker claimed the first block, and the second worker the other. With pieces of a word each, of two
/// workers the first alone scans the first half of the roots.
fn are_apart(claims: &[Vec<u32>]) -> bool {
    match claims {
        [first, second] => first.as_slice() == [0u32].as_slice()
            && second.as_slice() == [1u32].as_slice(),
        _ => false,
    }
}

#[test]
fn a_search_of_one_core_has_the_lists_of_marking(rt: HostRuntime) -> Result<(), Fail> {
    let alloc = rt.alloc();
    let core = core_of(alloc, &APART)?;
    let plan = Plan::new(2, 1, 0)?;
    let MarkingInput { image, live, roots } = marking_input(alloc, core.as_slice(), BLOCKS)?;
    let lookup = Sorted::new(&live, Reading::interior());
    let marked = mark(&rt, alloc, &image, &lookup, &roots, &live, plan, &Open)?;
    assert!(rt; are_apart(marked.claims.as_slice()));
    let found = by_plan(&rt, alloc, core.as_slice(), BLOCKS.as_bytes(), plan)?;
    assert!(rt; are_apart(found.claims.as_slice()));
    Ok(())
}

#[test]
fn a_search_of_two_cores_has_the_lists_of_the_second_marking(rt: HostRuntime) -> Result<(), Fail> {
    let alloc = rt.alloc();
    let earlier = core_of(alloc, &[])?;
    let later = core_of(alloc, &APART)?;
    let found = of_two(
        &rt,
        alloc,
        (earlier.as_slice(), BLOCKS.as_bytes()),
        (later.as_slice(), BLOCKS.as_bytes()),
        Plan::new(2, 1, 0)?,
    )?;
    assert!(rt; are_apart(found.claims.as_slice()));
    Ok(())
}
