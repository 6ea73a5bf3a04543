//! Claims and reports of one core, on the caller's thread.

use crate::claims::hold_each_once;
use crate::hundreds::{CHAIN, STAR, chain, star};
use crate::searches::{alone, gives};
use std::test::Fail;

#[test]
fn a_chain_is_followed_to_its_end(rt: HostRuntime) -> Result<(), Fail> {
    let sample = chain(rt.alloc())?;
    let log = sample.log.as_bytes();
    let found = alone(rt.alloc(), sample.core.as_slice(), log)?;
    gives(&rt, &"chain", &found, CHAIN, 0, 1);
    assert!(rt; hold_each_once(rt.alloc(), found.claims.as_slice(), 100)?);
    Ok(())
}

#[test]
fn a_star_is_followed_to_all_ends(rt: HostRuntime) -> Result<(), Fail> {
    let sample = star(rt.alloc())?;
    let log = sample.log.as_bytes();
    let found = alone(rt.alloc(), sample.core.as_slice(), log)?;
    gives(&rt, &"star", &found, STAR, 0, 1);
    assert!(rt; hold_each_once(rt.alloc(), found.claims.as_slice(), 101)?);
    Ok(())
}
