//! What more than one crate's tests are made of.

use crate::comparisons::same;
use leak_blocks::{Live, SmallSpans, replay};
use leak_elf::{Image, Words, core_k};
use leak_index::{Reading, Sorted};
use leak_later::{Retraced, carry, differing, retrace};
use leak_mtrace::Log;
use leak_notes::Threads;
use leak_pool::{Open, Plan, PoolError};
use leak_roots::Roots;
use leak_scan::Pages;
use std::alloc::{AllocGlobal, Global};
use std::process::Abort;
use std::test::Fail;
use std::thread;

/// The live blocks of a log.
pub fn lives(alloc: Global, text: &str) -> Result<Live, Fail> {
    let log = Log::read(alloc, text.as_bytes())?;
    Ok(replay(alloc, &log)?)
}

/// Replaces the bytes from the file offset on.
pub fn set(core: &mut Vec<u8>, at: usize, bytes: &[u8]) {
    for (i, value) in bytes.iter().enumerate() {
        if let Some(byte) = core.get_mut(at.wrapping_add(i)) {
            *byte = *value;
        }
    }
}

/// The sample core with the words set, each by its address.
pub fn core_of(alloc: Global, words: &[(u64, u64)]) -> Result<Vec<u8>, Fail> {
    let mut core = core_k(alloc, &[])?;
    for (addr, word) in words {
        let at = addr.wrapping_sub(0xf000) as usize;
        set(&mut core, at, &word.to_le_bytes());
    }
    Ok(core)
}

/// What marking asks of a core and a log.
#[derive(Drop)]
pub struct Sample<'a> {
    pub image: Image<'a>,
    pub live: Live,
    pub roots: Roots,
}

/// Reads a core and a log, with all root words.
pub fn sample_of<'a>(alloc: Global, core: &'a [u8], log: &str) -> Result<Sample<'a>, Fail> {
    let image = Image::read(alloc, core)?;
    let threads = Threads::read(alloc, &image)?;
    let live = lives(alloc, log)?;
    let small = SmallSpans::none(alloc);
    let roots = Roots::find(alloc, &image, &threads, &live, &small, true)?;
    Ok(Sample { image, live, roots })
}

/// The pages at which two cores differ.
fn pages_between<R: thread::Threads + Sync + AllocGlobal>(
    rt: &R,
    before: &Image,
    now: &Image,
) -> Result<Pages, Fail> {
    Ok(differing(rt, rt.alloc(), before, now)?)
}

/// Ends the test if two cores differ at other pages.
pub fn differ_at<R: thread::Threads + Sync + AllocGlobal + Abort>(
    rt: &R,
    before: &[u8],
    now: &[u8],
    wanted: &[u64],
) -> Result<(), Fail> {
    let before = Image::read(rt.alloc(), before)?;
    let now = Image::read(rt.alloc(), now)?;
    let pages = pages_between(rt, &before, &now)?;
    same(rt, pages.numbers(), wanted);
    Ok(())
}

/// Marks again in the later of two cores, over these words of it, after the blocks of the earlier log that say so were
/// marked. It is apart from what makes the cores, since a call costs more to prove the more is known before it.
pub fn retraced<R: thread::Threads + Sync + AllocGlobal + Abort, W: Words + Sync>(
    rt: &R,
    words: &W,
    earlier: &Sample,
    later: &Sample,
    marked: &[bool],
    plan: Plan,
) -> Result<Retraced, Fail> {
    if later.live.blocks().len() > u32::MAX as usize {
        return Err(Fail::from(PoolError::TooMany));
    }
    assert!(rt; marked.len() == earlier.live.blocks().len());
    let alloc = rt.alloc();
    let carried = carry(alloc, &earlier.live, marked, &later.live)?;
    let pages = pages_between(rt, &earlier.image, &later.image)?;
    let lookup = Sorted::new(&later.live, Reading::interior());
    let (roots, live) = (&later.roots, &later.live);
    Ok(retrace(
        rt, alloc, words, &lookup, roots, live, &carried, &pages, plan, &Open,
    )?)
}
