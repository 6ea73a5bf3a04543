//! Claims and reports of one core by worker threads.

use crate::claims::hold_each_once;
use crate::hundreds::{CHAIN, STAR, chain, star};
use crate::plans::plans;
use crate::searches::{by_plan, gives};
use std::test::Fail;

#[test]
fn chains_and_stars_are_followed_to_their_ends(rt: HostRuntime) -> Result<(), Fail> {
    let plans = plans(rt.alloc())?;
    let samples = [
        (chain(rt.alloc())?, CHAIN, 100),
        (star(rt.alloc())?, STAR, 101),
    ];
    for (sample, report, blocks) in &samples {
        let core = sample.core.as_slice();
        let log = sample.log.as_bytes();
        for plan in plans.as_slice() {
            let found = by_plan(&rt, rt.alloc(), core, log, *plan)?;
            gives(&rt, &plan, &found, report, 0, plan.workers() as usize);
            let claims = found.claims.as_slice();
            assert!(rt; hold_each_once(rt.alloc(), claims, *blocks)?, "by {plan:?}");
        }
    }
    Ok(())
}
