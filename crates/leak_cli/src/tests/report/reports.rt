//! The first lines of reports, with numbers that no small core gives.

use crate::tests::comparisons::same;
use crate::tests::report::samples::report;
use leak_report::{Head, Two};
use std::test::Fail;

#[test]
fn first_lines_of_two_cores(rt: HostRuntime) -> Result<(), Fail> {
    let head = Head {
        undumped: 4096,
        unknown: 2,
        displaced: 1,
        torn: 1,
        freed: Some(7),
        dead: Some(252),
        two: Some(Two {
            fresh: 1,
            fresh_bytes: 32,
            reread: 18_446_744_073_709_551_615,
        }),
    };
    let log = "+ 0x10100 0x20\n+ 0x10200 0x10\n";
    let found = report(&rt, rt.alloc(), &head, log, &[true, true], &[false, false])?;
    let wanted = "blocks 2 bytes 48\n\
        undumped 4096\n\
        unknown 2 displaced 1 torn 1\n\
        freed 7\n\
        dead 252\n\
        new 1 bytes 32\n\
        reread 18446744073709551615\n\
        marked 2 bytes 48\n\
        leaked 0 bytes 0\n\
        heads 0\n";
    same(&rt, found.as_slice(), wanted.as_bytes());
    Ok(())
}
