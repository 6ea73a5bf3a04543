//! Words of the command line.

use crate::tests::asked::{
    asked, asks, options, shown, skipping, takes, with_all_memory, without_slack,
};
use crate::tests::comparisons::same;
use leak_index::Reading;
use leak_pool::Plan;
use leak_request::{Options, UsageFault};
use std::test::*;

#[test]
fn requests_of_holders_and_growth(rt: HostRuntime) -> Result<(), Fail> {
    let plan = Plan::new(2, 512, 1024)?;
    let options = skipping(options(false, Reading::interior(), plan), true, false);
    let want = format!(in rt.alloc(); "holders {options:?} c l")?;
    let request = asked(&rt, "holders c l --skip-freed --workers 2")??;
    same(&rt, shown(&rt, &request)?.as_str(), want.as_str());
    let request = asked(&rt, "grow --strict l m")??;
    let want = "grow GrowOptions { strict: true, log_limit: 4294967296 } l m";
    same(&rt, shown(&rt, &request)?.as_str(), want);
    Ok(())
}

#[test]
fn requests_of_one_core(rt: HostRuntime) -> Result<(), Fail> {
    let interior = Reading::interior();
    let listed = Reading::displaced([8, 16].as_slice())?;
    let cases = [
        (
            "one core.1 trace.log",
            interior,
            (4, 512, 1024),
            "core.1 trace.log",
        ),
        (
            "one core.1 trace.log --workers 2 --displace 8,16",
            listed,
            (2, 512, 1024),
            "core.1 trace.log",
        ),
        ("one a b --piece 1 --stack 0", interior, (4, 1, 0), "a b"),
        (
            "one --workers=64 --piece=65536 --stack=65536 -- -a -b",
            interior,
            (64, 65536, 65536),
            "-a -b",
        ),
    ];
    for (line, reading, (workers, piece, stack), paths) in cases {
        let plan = Plan::new(workers, piece, stack)?;
        takes(&rt, line, options(false, reading, plan), paths)?;
    }
    Ok(())
}

#[test]
fn requests_that_leave_words_out(rt: HostRuntime) -> Result<(), Fail> {
    let usual = options(false, Reading::interior(), Plan::new(4, 512, 1024)?);
    let without_ends = Options {
        reading: Reading::interior().skip_ends(true),
        ..usual
    };
    let cases = [
        ("one a b --skip-ends", without_ends),
        (
            "one --all-memory a --skip-ends b",
            with_all_memory(without_ends),
        ),
        ("one a b --skip-freed", skipping(usual, true, false)),
        ("one --skip-freed a b", skipping(usual, true, false)),
        ("one a b --skip-links", skipping(usual, false, true)),
        (
            "one --skip-links a --skip-freed b",
            skipping(usual, true, true),
        ),
        ("one a b --skip-slack", without_slack(usual)),
        ("one a b --all-memory", with_all_memory(usual)),
        (
            "one --skip-freed a --all-memory b",
            with_all_memory(skipping(usual, true, false)),
        ),
    ];
    for (line, wanted) in cases {
        takes(&rt, line, wanted, "a b")?;
    }
    Ok(())
}

#[test]
fn requests_with_flags(rt: HostRuntime) -> Result<(), Fail> {
    let usual = options(false, Reading::interior(), Plan::new(4, 512, 1024)?);
    let check = Options {
        check: true,
        ..usual
    };
    let strict = Options {
        strict: true,
        ..usual
    };
    let other = Options {
        other_heap: true,
        ..usual
    };
    let both = Options {
        strict: true,
        ..other
    };
    let cases = [
        ("one a b --check", check),
        ("one a b --strict", strict),
        ("one --other-heap a b", other),
        ("one a --strict b --other-heap", both),
    ];
    for (line, wanted) in cases {
        takes(&rt, line, wanted, "a b")?;
    }
    Ok(())
}

#[test]
fn requests_of_two_cores(rt: HostRuntime) -> Result<(), Fail> {
    let listed = Reading::displaced([8, 16].as_slice())?;
    let usual = options(true, Reading::interior(), Plan::new(4, 512, 1024)?);
    let short = Options {
        plan: Plan::new(4, 1, 0)?,
        ..usual
    };
    let narrow = Options {
        reading: listed,
        plan: Plan::new(2, 512, 1024)?,
        ..usual
    };
    let without_ends = Options {
        reading: listed.skip_ends(true),
        ..narrow
    };
    let cases = [
        ("two a b c d --piece 1 --stack 0", short),
        ("two --workers 2 a b --displace 8,16 c d", narrow),
        (
            "two --workers 2 --skip-ends a b --displace 8,16 c d",
            without_ends,
        ),
    ];
    for (line, wanted) in cases {
        takes(&rt, line, wanted, "a b c d")?;
    }
    Ok(())
}

#[test]
fn requests_of_two_cores_that_leave_words_out(rt: HostRuntime) -> Result<(), Fail> {
    let usual = options(true, Reading::interior(), Plan::new(4, 512, 1024)?);
    let all = Options {
        check: true,
        strict: true,
        ..skipping(usual, true, true)
    };
    let cases = [
        ("two a --all-memory b c d", with_all_memory(usual)),
        (
            "two a --skip-slack b --skip-freed c d",
            without_slack(skipping(usual, true, false)),
        ),
        (
            "two --skip-links --check a b --skip-freed c d --strict",
            all,
        ),
    ];
    for (line, wanted) in cases {
        takes(&rt, line, wanted, "a b c d")?;
    }
    Ok(())
}

#[test]
fn requests_for_a_block(rt: HostRuntime) -> Result<(), Fail> {
    let listed = Reading::displaced([8, 16].as_slice())?;
    let usual = options(false, Reading::interior(), Plan::new(1, 1, 0)?);
    let narrow = options(false, listed, Plan::new(1, 1, 0)?);
    let neither = skipping(usual, true, true);
    let cases = [
        (
            "why core.1 trace.log 0x10100",
            usual,
            0x10100,
            "core.1 trace.log",
        ),
        ("why a b 0xAbCdEf", usual, 0xABCDEF, "a b"),
        ("why a b 0xffffffffffffffff", usual, u64::MAX, "a b"),
        ("why a b 0x0000000000000001", usual, 1, "a b"),
        ("why --skip-links a b --skip-freed 0x0", neither, 0, "a b"),
        ("why a b 0x0 --skip-slack", without_slack(usual), 0, "a b"),
        ("why a b 0x10 --displace 8,16", narrow, 16, "a b"),
        (
            "why a b 0x10 --skip-ends",
            options(
                false,
                Reading::interior().skip_ends(true),
                Plan::new(1, 1, 0)?,
            ),
            16,
            "a b",
        ),
        (
            "why --all-memory a b 0x10",
            with_all_memory(usual),
            16,
            "a b",
        ),
    ];
    for (line, wanted, address, paths) in cases {
        asks(&rt, line, wanted, address, paths)?;
    }
    Ok(())
}

#[test]
fn text_of_want_of_memory(rt: HostRuntime) -> Result<(), Fail> {
    let text = UsageFault::NoMemory.to_string(rt.alloc())?;
    same(&rt, text.as_str(), "out of memory");
    Ok(())
}
