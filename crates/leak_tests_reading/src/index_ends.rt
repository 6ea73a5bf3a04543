//! Words that lead to a block if ends are left out.

use crate::index::check;
use leak_index::{Hits, Reading};
use std::test::Fail;

/// Four blocks, of which two begin at the end of another, and one has no byte.
const BY_PAGES: &str = "+ 0x100 0x10\n+ 0x110 0\n+ 0x111 0xf\n+ 0x130 0x10\n";

/// The same at multiples of 16.
const BY_ROWS: &str = "+ 0x10100 0x20\n+ 0x10120 0x10\n+ 0x10130 0\n+ 0x10140 0x10\n";

#[test]
fn words_without_ends_by_pages(rt: HostRuntime) -> Result<(), Fail> {
    check(
        &rt,
        rt.alloc(),
        BY_PAGES,
        Reading::interior().skip_ends(true),
        &[
            (0xff, Hits::Zero),
            (0x100, Hits::One(0)),
            (0x10f, Hits::One(0)),
            (0x110, Hits::One(1)),
            (0x111, Hits::One(2)),
            (0x11f, Hits::One(2)),
            (0x120, Hits::Zero),
            (0x13f, Hits::One(3)),
            (0x140, Hits::Zero),
            (u64::MAX, Hits::Zero),
        ],
    )
}

#[test]
fn words_without_ends_by_rows(rt: HostRuntime) -> Result<(), Fail> {
    check(
        &rt,
        rt.alloc(),
        BY_ROWS,
        Reading::interior().skip_ends(true),
        &[
            (0x100ff, Hits::Zero),
            (0x1011f, Hits::One(0)),
            (0x10120, Hits::One(1)),
            (0x1012f, Hits::One(1)),
            (0x10130, Hits::One(2)),
            (0x10131, Hits::Zero),
            (0x10140, Hits::One(3)),
            (0x10150, Hits::Zero),
        ],
    )
}

#[test]
fn listed_displacements_stay_without_ends(rt: HostRuntime) -> Result<(), Fail> {
    let Ok(listed) = Reading::displaced(&[15, 16]) else {
        return Ok(assert!(rt; false, "two values are a reading"));
    };
    check(
        &rt,
        rt.alloc(),
        BY_PAGES,
        listed.skip_ends(true),
        &[
            (0x100, Hits::One(0)),
            (0x108, Hits::Zero),
            (0x10f, Hits::One(0)),
            (0x110, Hits::One(1)),
            (0x111, Hits::One(2)),
            (0x120, Hits::Zero),
            (0x13f, Hits::One(3)),
            (0x140, Hits::Zero),
        ],
    )
}

#[test]
fn ends_count_again_where_they_are_not_left_out(rt: HostRuntime) -> Result<(), Fail> {
    check(
        &rt,
        rt.alloc(),
        BY_ROWS,
        Reading::interior().skip_ends(true).skip_ends(false),
        &[
            (0x10120, Hits::Two(0, 1)),
            (0x10130, Hits::Two(1, 2)),
            (0x10150, Hits::One(3)),
        ],
    )
}
