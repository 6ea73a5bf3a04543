//! The warnings of what is odd about the inputs.

use crate::tests::comparisons::same;
use leak_report::{Signs, warnings};
use std::test::Fail;

/// Nothing odd, of this many live blocks.
fn signs(live: u64) -> Signs {
    Signs {
        live,
        torn: 0,
        unknown: 0,
        displaced: 0,
        misfits: 0,
    }
}

#[test]
fn warnings_go_by_input(rt: HostRuntime) -> Result<(), Fail> {
    let (torn, unknown, displaced, misfits) = (1, 1, 1, 18_446_744_073_709_551_615);
    let first = Signs {
        torn,
        misfits,
        ..signs(misfits)
    };
    let second = Signs {
        unknown,
        displaced,
        ..signs(0)
    };
    let found = warnings(rt.alloc(), &[first, second])?;
    let wanted = [
        "leak_find: warning: input 1: the log ends inside a line: its last calls are missing",
        "leak_find: warning: input 1: 18446744073709551615 of 18446744073709551615 live blocks \
        have no chunk of their size in use in the core: the log is of another moment, or of \
        another process",
        "leak_find: warning: input 2: no live block: the log shows no allocation that was kept",
        "leak_find: warning: input 2: 1 give-backs of blocks that were not live: tracing began \
        late, or lines are missing",
        "leak_find: warning: input 2: 1 allocations over a live block: lines are missing or out \
        of order",
    ];
    assert!(rt; found.as_str().lines().eq(wanted.iter().copied()));
    same(&rt, warnings(rt.alloc(), &[])?.as_str(), "");
    Ok(())
}
