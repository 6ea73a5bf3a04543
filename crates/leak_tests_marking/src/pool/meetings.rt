//! Workers that scan and claim at the same time.
ghost use Rattle.leak_elf.specs.Words.{word_of};
ghost use Rattle.leak_elf.specs.Aligned.{aligned_words};

use crate::comparisons::{same, same_lists};
use crate::pool::samples::{TURNS, no_start, two_apart};
use crate::samples::{Sample, core_of, sample_of};
use leak_elf::{Image, Words};
use leak_index::{Reading, Sorted};
use leak_pool::{Marked, Open, Plan, mark, mark_from};
use leak_scan::Pages;
use std::alloc::{AllocGlobal, Global};
use std::process::Abort;
use std::sync::atomic::{AtomicU64, Ordering};
use std::test::Fail;
use std::thread::Threads;

/// The words of a core, of which the first and the last wait for one another. Counts the reads of each.
#[derive(Drop)]
struct Meeting<'a> {
    image: &'a Image<'a>,
    reads: Vec<AtomicU64>,
    late: AtomicU64,
}

impl<'a> Meeting<'a> {
    /// How often the word was read.
    fn reads(&self, addr: u64) -> u64 {
        let at = (addr.wrapping_sub(0x10000) / 8) as usize;
        match self.reads.as_slice().get(at) {
            Some(reads) => reads.load(Ordering::SeqCst),
            None => 0,
        }
    }

    /// Waits until the word has been read.
    fn wait_for(&self, addr: u64) {
        for _ in 0..TURNS {
            if self.reads(addr) != 0 {
                return;
            }
        }
        self.late.store(1, Ordering::SeqCst);
    }
}

impl<'a> Words for Meeting<'a> {
    ghost word_at = { λ meeting. word_of meeting.image.now };

    fn word(&self, addr: u64) -> Option<u64> {
        let at = (addr.wrapping_sub(0x10000) / 8) as usize;
        if let Some(reads) = self.reads.as_slice().get(at) {
            reads.fetch_add(1, Ordering::SeqCst);
        }
        match addr {
            0x10000 => self.wait_for(0x10ff8),
            0x10ff8 => self.wait_for(0x10000),
            _ => {}
        }
        self.image.word(addr)
    }

    fn next(&self, from: u64) -> Option<u64> {
        self.image.next(from)
    }

    ghost aligned = { λ meeting. aligned_words meeting.image.now };
}

/// The counts of the words of the sample core, all 0.
fn counts(alloc: Global) -> Result<Vec<AtomicU64>, Fail> {
    let mut counts = Vec::new(alloc);
    for _ in 0..512 {
        counts.push(AtomicU64::new(0))?;
    }
    Ok(counts)
}

/// Marks by two workers.
fn marked_by_two<R: Threads + Sync + AllocGlobal>(
    rt: &R,
    sample: &Sample,
    words: &Meeting,
) -> Result<Marked, Fail> {
    let lookup = Sorted::new(&sample.live, Reading::interior());
    let plan = Plan::new(2, 1, 0)?;
    let (roots, live) = (&sample.roots, &sample.live);
    Ok(mark(rt, rt.alloc(), words, &lookup, roots, live, plan, &Open)?)
}

/// The same from a start that marks nothing.
fn marked_from_nothing<R: Threads + Sync + AllocGlobal + Abort>(
    rt: &R,
    sample: &Sample,
    words: &Meeting,
) -> Result<Marked, Fail> {
    let alloc = rt.alloc();
    let lookup = Sorted::new(&sample.live, Reading::interior());
    let plan = Plan::new(2, 1, 0)?;
    let (roots, live) = (&sample.roots, &sample.live);
    let nothing = no_start(alloc);
    let Some(pages) = Pages::new(Vec::new(alloc)) else {
        panic!(rt; "no pages are pages")
    };
    Ok(mark_from(
        rt, alloc, words, &lookup, roots, live, plan, &Open, &nothing, &pages,
    )?)
}

/// Ends the test unless each worker claims one block while the other scans, and each word is read once.
fn meet<R: Threads + Sync + AllocGlobal + Abort>(
    rt: &R,
    sample: &Sample,
    from: bool,
) -> Result<(), Fail> {
    let words = Meeting {
        image: &sample.image,
        reads: counts(rt.alloc())?,
        late: AtomicU64::new(0),
    };
    let marked = if from {
        marked_from_nothing(rt, sample, &words)?
    } else {
        marked_by_two(rt, sample, &words)?
    };
    same(rt, words.late.load(Ordering::SeqCst), 0);
    same_lists(rt, marked.claims.as_slice(), &[&[0], &[1]]);
    for reads in words.reads.as_slice() {
        same(rt, reads.load(Ordering::SeqCst), 1);
    }
    Ok(())
}

#[test]
fn two_workers_scan_and_claim_at_the_same_time(rt: HostRuntime) -> Result<(), Fail> {
    let alloc = rt.alloc();
    let sample = two_apart(alloc)?;
    let core = core_of(alloc, sample.words.as_slice())?;
    let sample = sample_of(alloc, core.as_slice(), sample.log.as_str())?;
    for from in [false, true] {
        meet(&rt, &sample, from)?;
    }
    Ok(())
}
