//! Scans of a core that keeps few words behind its head: blocks and root words lead where they do in the whole core.

use crate::comparisons::{same, same_in};
use crate::elf::passed::head;
use crate::samples::lives;
use crate::scan::block;
use leak_blocks::SmallSpans;
use leak_elf::{Image, Words, core_k};
use leak_index::{Reading, Sorted};
use leak_notes::Threads;
use leak_pool::{EdgeRoom, Open, Plan, leading_roots, mark_by_edges};
use leak_roots::Roots;
use leak_scan::{kept_between, kept_in_block, lead_somewhere, list_words};
use leak_sift::Behind;
use leak_sparse::SparseWords;
use leak_team::Team;
use std::alloc::{AllocGlobal, Global};
use std::process::Abort;
use std::test::Fail;

/// A root word leads to the first block, and its second word to the second.
const LINKED: [(u64, u64); 2] = [(0x10008, 0x10100), (0x10108, 0x10200)];

const LOG: &str = "+ 0x10100 0x10\n+ 0x10200 0x20\n+ 0x10300 0x10\n";

/// The words behind the head of the sample core, of which the first would be at 0xf218.
fn linked_words(alloc: Global) -> Result<SparseWords, Fail> {
    let mut words = SparseWords::new(alloc);
    words.push_after(446, 0x10100)?;
    words.push_after(31, 0x10200)?;
    words.push_zeros(478)?;
    Ok(words)
}

/// The sample core with these words behind its head.
fn sifted<'a>(
    rt: &(impl Abort + AllocGlobal),
    core: &'a [u8],
    words: &'a SparseWords,
) -> Result<Image<'a, Behind<'a>>, Fail> {
    assert!(rt; words.len() == 957);
    let rest = Behind::new(words, 7656)?;
    Ok(Image::passed(rt.alloc(), head(rt, core), rest)?)
}

/// Of words at a start and in so many bytes the blocks that they lead to, if those that are kept can be had at once.
const PLACES: [(u64, u64, Option<&[u32]>); 6] = [
    (0x10100, 0x8, Some(&[])),
    (0x10100, 0x10, Some(&[1])),
    (0x10104, 0x10, None),
    (0x10110, 0xf0, Some(&[])),
    (0x10000, 0x1000, Some(&[0, 1])),
    (0x10ff8, 0x10, None),
];

#[test]
fn kept_words_lead_where_all_do(rt: HostRuntime) -> Result<(), Fail> {
    let alloc = rt.alloc();
    let core = core_k(alloc, &LINKED)?;
    let words = linked_words(alloc)?;
    let image = sifted(&rt, core.as_slice(), &words)?;
    let live = lives(alloc, LOG)?;
    assert!(rt; live.blocks().len() == 3);
    let lookup = Sorted::new(&live, Reading::interior());
    for (start, size, wanted) in PLACES {
        let Some(kept) = kept_in_block(&image, &lookup, &block(start, size)) else {
            same_in(&rt, &(start, size), None, wanted);
            continue;
        };
        let mut targets = Vec::new(alloc);
        assert!(rt; list_words(&lookup, kept, 2, &mut targets)?, "{start}");
        same_in(&rt, &(start, size), Some(targets.as_slice()), wanted);
        let end = start.saturating_add(size);
        let leads = kept_between(&image, &lookup, start, end).map(|kept| lead_somewhere(
            &lookup, kept,
        ));
        same_in(&rt, &(start, size), leads, Some(!targets.is_empty()));
    }
    Ok(())
}

#[test]
fn kept_words_with_more_targets_than_room_are_told(rt: HostRuntime) -> Result<(), Fail> {
    let alloc = rt.alloc();
    let live = lives(alloc, LOG)?;
    assert!(rt; live.blocks().len() == 3);
    let lookup = Sorted::new(&live, Reading::interior());
    for (room, fits) in [(0, false), (1, false), (2, true)] {
        let mut targets = Vec::new(alloc);
        let listed = list_words(&lookup, &[0x10100, 7, 0x10200], room, &mut targets)?;
        same_in(&rt, &room, listed, fits);
        same_in(&rt, &room, targets.len(), room);
    }
    Ok(())
}

/// Ends the test unless one range of root words leads to a block, and two of the three blocks are marked.
fn is_marked<R, W>(rt: &R, words: &W, core: &[u8]) -> Result<(), Fail>
where
    R: AllocGlobal + Abort + std::thread::Threads + Sync,
    W: Words + Sync,
{
    let alloc = rt.alloc();
    let image = Image::read(alloc, core)?;
    let threads = Threads::read(alloc, &image)?;
    let live = lives(alloc, LOG)?;
    let lookup = Sorted::new(&live, Reading::interior());
    let small = SmallSpans::none(alloc);
    let roots = Roots::find(alloc, &image, &threads, &live, &small, true)?;
    let workers = 2;
    let team = Team { rt, alloc, workers };
    let roots = leading_roots(&team, words, &lookup, roots, &live)?;
    same(rt, roots.memory(), [(0x10000, 0x10100)].as_slice());
    let plan = Plan::new(workers, 512, 1024)?;
    let room = EdgeRoom::of_core(core);
    let marked = mark_by_edges(rt, alloc, words, &lookup, &roots, &live, plan, &Open, room)?;
    same(rt, marked.set.as_slice(), [true, true, false].as_slice());
    Ok(())
}

#[test]
fn the_same_blocks_are_marked_over_kept_words(rt: HostRuntime) -> Result<(), Fail> {
    let alloc = rt.alloc();
    let core = core_k(alloc, &LINKED)?;
    let core = core.as_slice();
    let words = linked_words(alloc)?;
    is_marked(&rt, &sifted(&rt, core, &words)?, core)?;
    is_marked(&rt, &Image::read(alloc, core)?, core)
}
