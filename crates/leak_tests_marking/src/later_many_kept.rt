//! Two cores with many kept blocks.
ghost use Rattle.leak_elf.specs.Words.{word_of};
ghost use Rattle.leak_elf.specs.Aligned.{aligned_words};

use crate::comparisons::same;
use crate::samples::{Sample, differ_at, lives, retraced, sample_of, set};
use leak_elf::{Image, Words, core_k};
use leak_later::Retraced;
use leak_pool::Plan;
use std::alloc::{AllocGlobal, Global};
use std::fmt::Write;
use std::process::Abort;
use std::sync::atomic::{AtomicU64, Ordering};
use std::test::Fail;
use std::thread::Threads;

/// How many blocks are kept. Each has one word, at a multiple of 16 from 0x10000 on.
const KEPT: u64 = 2048;

/// Where the last of them ends.
const END: u64 = 0x18000;

/// The words of a core, with a count of those of the kept blocks that are read.
#[derive(Drop)]
struct Counting<'a> {
    image: &'a Image<'a>,
    asked: &'a AtomicU64,
}

impl<'a> Words for Counting<'a> {
    ghost word_at = { λ counting. word_of counting.image.now };

    fn word(&self, addr: u64) -> Option<u64> {
        if addr % 16 == 0 && (0x10000..END).contains(&addr) {
            self.asked.fetch_add(1, Ordering::SeqCst);
        }
        self.image.word(addr)
    }

    fn next(&self, from: u64) -> Option<u64> {
        self.image.next(from)
    }

    ghost aligned = { λ counting. aligned_words counting.image.now };
}

/// The sample core with a segment of 65,536 bytes, and its last word.
fn wide_core(alloc: Global, last: u64) -> Result<Vec<u8>, Fail> {
    let mut core = core_k(alloc, &[])?;
    for _ in 8192..0x11000u64 {
        core.push(0)?;
    }
    let fields = [(152usize, 0x10000u64), (160, 0x10000), (0x10ff8, last)];
    for (at, value) in fields {
        set(&mut core, at, &value.to_le_bytes());
    }
    Ok(core)
}

/// The log of the kept blocks.
fn kept(alloc: Global) -> Result<String, Fail> {
    let mut log = String::new(alloc);
    for i in 0..KEPT {
        let start = 0x10000 + 16 * i;
        write!(log, "+ {start:#x} 0x8\n")?;
    }
    Ok(log)
}

#[test]
fn the_last_page_of_two_thousand_kept_blocks_differs(rt: HostRuntime) -> Result<(), Fail> {
    let first = wide_core(rt.alloc(), 0)?;
    let second = wide_core(rt.alloc(), 1)?;
    differ_at(&rt, first.as_slice(), second.as_slice(), &[31])?;
    let log = kept(rt.alloc())?;
    let live = lives(rt.alloc(), log.as_str())?;
    same(&rt, live.blocks().len(), 2048);
    Ok(())
}

/// Marks again in the later of two cores, after all blocks of the earlier were marked. Counts what it reads of these.
fn counted<R: Threads + Sync + AllocGlobal + Abort>(
    rt: &R,
    earlier: &Sample,
    later: &Sample,
    asked: &AtomicU64,
) -> Result<Retraced, Fail> {
    let marked = vec![in rt.alloc(); true; earlier.live.blocks().len()]?;
    let words = Counting {
        image: &later.image,
        asked,
    };
    let plan = Plan::new(2, 512, 1024)?;
    retraced(rt, &words, earlier, later, &marked, plan)
}

/// The same of two cores that have these bytes.
fn counted_of<R: Threads + Sync + AllocGlobal + Abort>(
    rt: &R,
    cores: [&[u8]; 2],
    asked: &AtomicU64,
) -> Result<Retraced, Fail> {
    let log = kept(rt.alloc())?;
    let earlier = sample_of(rt.alloc(), cores[0], log.as_str())?;
    let later = sample_of(rt.alloc(), cores[1], log.as_str())?;
    counted(rt, &earlier, &later, asked)
}

#[test]
fn no_word_of_two_thousand_kept_blocks_is_read_off_differing_pages(
    rt: HostRuntime,
) -> Result<(), Fail> {
    let first = wide_core(rt.alloc(), 0)?;
    // The last page has no kept block.
    let second = wide_core(rt.alloc(), 1)?;
    let asked = AtomicU64::new(0);
    let cores = [first.as_slice(), second.as_slice()];
    let Retraced { marked, reread } = counted_of(&rt, cores, &asked)?;
    assert!(rt; marked.set.iter().all(|block| *block));
    same(&rt, reread, 0);
    same(&rt, asked.load(Ordering::SeqCst), 0);
    Ok(())
}
