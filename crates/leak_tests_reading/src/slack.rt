//! What malloc gives blocks past their size, and root words without that.

use crate::chunks::core_with;
use crate::comparisons::same;
use leak_blocks::{SmallSpans, Span, replay};
use leak_chunks::slack_spans;
use leak_elf::Image;
use leak_mtrace::Log;
use leak_notes::Threads;
use leak_roots::Roots;
use std::test::Fail;

/// The block of 8 bytes has a chunk of 32, of which it can have 24. The next chunk's size word stays, and so do registers.
#[test]
fn places_in_slack_are_no_roots(rt: HostRuntime) -> Result<(), Fail> {
    let core = core_with(rt.alloc(), &[(0x100f8, 0x21), (0x10118, 0x21)])?;
    let image = Image::read(rt.alloc(), core.as_slice())?;
    let threads = Threads::read(rt.alloc(), &image)?;
    let log = Log::read(rt.alloc(), b"+ 0x10100 0x8\n")?;
    let live = replay(rt.alloc(), &log)?;
    let small = SmallSpans::none(rt.alloc());
    let all = Roots::find(rt.alloc(), &image, &threads, &live, &small, true)?;
    same(
        &rt,
        all.memory(),
        [(0x10000, 0x10100), (0x10108, 0x11000)].as_slice(),
    );
    let slack = slack_spans(rt.alloc(), &image, &live)?;
    let without = all.skip_slack(rt.alloc(), slack.ranges())?;
    same(
        &rt,
        without.memory(),
        [(0x10000, 0x10100), (0x10118, 0x11000)].as_slice(),
    );
    same(&rt, without.registers().len(), 27);
    same(&rt, without.freed(), 0);
    Ok(())
}

/// A mapping of 32 bytes at 0x10100, whose slack ends at 0x101f0, and in it a block that has slack of its own, as malloc
/// gives none; and one after it.
#[test]
fn slack_that_overlaps_is_one_span(rt: HostRuntime) -> Result<(), Fail> {
    let words = [
        (0x100f8, 0x102),
        (0x10138, 0x21),
        (0x10158, 0x21),
        (0x101f8, 0x21),
        (0x10218, 0x21),
    ];
    let core = core_with(rt.alloc(), &words)?;
    let image = Image::read(rt.alloc(), core.as_slice())?;
    let log = b"+ 0x10100 0x20\n+ 0x10140 0x8\n+ 0x10200 0x14\n";
    let lines = Log::read(rt.alloc(), log)?;
    let live = replay(rt.alloc(), &lines)?;
    let slack = slack_spans(rt.alloc(), &image, &live)?;
    let spans = [
        Span {
            first: 0x10120,
            last: 0x101ef,
        },
        Span {
            first: 0x10214,
            last: 0x10217,
        },
    ];
    same(&rt, slack.ranges(), spans.as_slice());
    Ok(())
}
