//! Claims and reports of two cores by worker threads.

use crate::claims::{hold, hold_each_once};
use crate::comparisons::same_in;
use crate::hundreds::{CHAIN, STAR, chain, star};
use crate::pairs::PAIRS;
use crate::plans::few_plans;
use crate::samples::core_of;
use crate::searches::{gives, of_two, reports};
use std::alloc::Global;
use std::test::Fail;

/// A report of one core with the lines that one of two cores has in addition.
pub fn with_lines(alloc: Global, report: &str, lines: &str) -> Result<String, Fail> {
    let mut text = String::new(alloc);
    if let Some((head, rest)) = report.split_once("marked ") {
        write!(text, "{head}{lines}marked {rest}")?;
    }
    Ok(text)
}

#[test]
fn what_is_neither_kept_nor_new_is_claimed(rt: HostRuntime) -> Result<(), Fail> {
    let plans = few_plans(rt.alloc())?;
    for pair in &PAIRS {
        let core1 = core_of(rt.alloc(), pair.core1)?;
        let core2 = core_of(rt.alloc(), pair.core2)?;
        let first = (core1.as_slice(), pair.log1.as_bytes());
        let second = (core2.as_slice(), pair.log2.as_bytes());
        let name = pair.name;
        for plan in plans.as_slice() {
            let found = of_two(&rt, rt.alloc(), first, second, *plan)?;
            let claims = found.claims.as_slice();
            same_in(&rt, &(name, plan), claims.len(), plan.workers() as usize);
            assert!(rt;
                hold(rt.alloc(), claims, pair.claimed)?,
                "{name} by {plan:?}"
            );
        }
    }
    Ok(())
}

#[test]
fn chains_and_stars_of_the_later_core_are_followed(rt: HostRuntime) -> Result<(), Fail> {
    let plans = few_plans(rt.alloc())?;
    let samples = [
        (chain(rt.alloc())?, CHAIN, 100),
        (star(rt.alloc())?, STAR, 101),
    ];
    let zeros = core_of(rt.alloc(), &[])?;
    for (sample, report, blocks) in &samples {
        let core = sample.core.as_slice();
        let log = sample.log.as_bytes();
        let second = (core, log);
        let wanted = with_lines(rt.alloc(), report, "new 0 bytes 0\nreread 0\n")?;
        // If nothing was marked before, all is claimed, and otherwise nothing is.
        for (earlier, claimed) in [(zeros.as_slice(), *blocks), (core, 0)] {
            let first = (earlier, log);
            for plan in plans.as_slice() {
                let found = of_two(&rt, rt.alloc(), first, second, *plan)?;
                let workers = plan.workers() as usize;
                gives(&rt, &plan, &found, wanted.as_str(), 0, workers);
                let claims = found.claims.as_slice();
                assert!(rt; hold_each_once(rt.alloc(), claims, claimed)?, "by {plan:?}");
            }
        }
    }
    Ok(())
}

#[test]
fn a_chain_that_is_new_is_claimed_by_no_worker(rt: HostRuntime) -> Result<(), Fail> {
    let sample = chain(rt.alloc())?;
    let core = sample.core.as_slice();
    let lines = "new 100 bytes 1600\nreread 0\n";
    let wanted = with_lines(rt.alloc(), CHAIN, lines)?;
    let first = (core, b"".as_slice());
    let second = (core, sample.log.as_bytes());
    for plan in few_plans(rt.alloc())?.as_slice() {
        let found = of_two(&rt, rt.alloc(), first, second, *plan)?;
        reports(&rt, &plan, &found, wanted.as_str());
        assert!(rt;
            hold(rt.alloc(), found.claims.as_slice(), &[])?,
            "by {plan:?}"
        );
    }
    Ok(())
}
