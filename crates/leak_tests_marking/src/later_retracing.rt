//! Claims of the first core that are traced in the second.
ghost use Rattle.leak_elf.specs.Words.{word_of};
ghost use Rattle.leak_elf.specs.Aligned.{aligned_words};

use crate::comparisons::{same, same_lists};
use crate::samples::{Sample, core_of, retraced, sample_of};
use leak_elf::{Image, Words};
use leak_later::Retraced;
use leak_pool::Plan;
use std::alloc::AllocGlobal;
use std::process::Abort;
use std::sync::atomic::{AtomicU64, Ordering};
use std::test::Fail;
use std::thread::Threads;

/// The words of a core, with a count of those of two blocks that are read: of 32 bytes at 0x10100 and of 16 at
/// 0x10200.
#[derive(Drop)]
struct Counting<'a> {
    image: &'a Image<'a>,
    asked: &'a AtomicU64,
}

impl<'a> Counting<'a> {
    fn count(&self, addr: u64) {
        if (0x10100..0x10120).contains(&addr) || (0x10200..0x10210).contains(&addr) {
            self.asked.fetch_add(1, Ordering::SeqCst);
        }
    }
}

impl<'a> Words for Counting<'a> {
    ghost word_at = { λ counting. word_of counting.image.now };

    fn word(&self, addr: u64) -> Option<u64> {
        self.count(addr);
        self.image.word(addr)
    }

    fn next(&self, from: u64) -> Option<u64> {
        let next = self.image.next(from);
        if let Some(addr) = next {
            self.count(addr);
        }
        next
    }

    ghost aligned = { λ counting. aligned_words counting.image.now };
}

/// Marks again in the later of two cores, by one worker, after all blocks of the earlier were marked or none.
fn counted<R: Threads + Sync + AllocGlobal + Abort>(
    rt: &R,
    earlier: &Sample,
    later: &Sample,
    is_marked: bool,
    asked: &AtomicU64,
) -> Result<Retraced, Fail> {
    let marked = vec![in rt.alloc(); is_marked; earlier.live.blocks().len()]?;
    let words = Counting {
        image: &later.image,
        asked,
    };
    let plan = Plan::new(1, 512, 1024)?;
    retraced(rt, &words, earlier, later, &marked, plan)
}

/// The same of two cores with these words, and of two logs.
fn traced<R: Threads + Sync + AllocGlobal + Abort>(
    rt: &R,
    cores: [&[(u64, u64)]; 2],
    logs: [&str; 2],
    is_marked: bool,
    asked: &AtomicU64,
) -> Result<Retraced, Fail> {
    let alloc = rt.alloc();
    let first = core_of(alloc, cores[0])?;
    let second = core_of(alloc, cores[1])?;
    let earlier = sample_of(alloc, first.as_slice(), logs[0])?;
    let later = sample_of(alloc, second.as_slice(), logs[1])?;
    counted(rt, &earlier, &later, is_marked, asked)
}

/// Ends the test if other blocks than two are marked, the one worker claimed others, or other blocks were read again.
fn come_to(rt: &impl Abort, found: &Retraced, claims: &[u32], reread: u64) {
    same(rt, found.marked.set.as_slice(), [true, true].as_slice());
    same_lists(rt, found.marked.claims.as_slice(), &[claims]);
    same(rt, found.reread, reread);
}

#[test]
fn a_fresh_block_is_scanned_where_nothing_differs(rt: HostRuntime) -> Result<(), Fail> {
    let asked = AtomicU64::new(0);
    let words = [(0x10100u64, 0x10200u64)];
    let logs = [
        "+ 0x10100 0x20\n+ 0x10200 0x10\n",
        "+ 0x10100 0x20\n+ 0x10200 0x10\n< 0x10100\n> 0x10100 0x20\n",
    ];
    let cores = [words.as_slice(), words.as_slice()];
    let retraced = traced(&rt, cores, logs, false, &asked)?;
    come_to(&rt, &retraced, &[1], 0);
    Ok(())
}

/// Three blocks, and the same without the second.
const KEPT: [&str; 2] = [
    "+ 0x10100 0x20\n+ 0x10120 0x10\n+ 0x10200 0x10\n",
    "+ 0x10100 0x20\n+ 0x10120 0x10\n+ 0x10200 0x10\n- 0x10120\n",
];

#[test]
fn no_word_of_a_kept_block_is_read_where_nothing_differs(rt: HostRuntime) -> Result<(), Fail> {
    let asked = AtomicU64::new(0);
    let words = [(0x10008u64, 0x10200u64), (0x10200, 0x10120)];
    let changed = [(0x10008u64, 0x10200u64), (0x10200, 0x10120), (0x10ff8, 1)];
    let cores = [words.as_slice(), words.as_slice()];
    let retraced = traced(&rt, cores, KEPT, true, &asked)?;
    come_to(&rt, &retraced, &[], 0);
    same(&rt, asked.load(Ordering::SeqCst), 0);

    let cores = [words.as_slice(), changed.as_slice()];
    let retraced = traced(&rt, cores, KEPT, true, &asked)?;
    come_to(&rt, &retraced, &[], 6);
    assert!(rt; asked.load(Ordering::SeqCst) > 0);
    Ok(())
}
