//! The search of one core on the caller's thread.

use crate::answer::Answer;
use crate::samples::{ONE_BLOCK, core_of, stack_core, vector_core};
use crate::whole::answer_of;
use leak_find::{Rules, Skip, find_alone};
use std::alloc::Global;

/// The report of one lost block.
pub(crate) const LOST: &str = "blocks 1 bytes 32\n\
                    undumped 0\n\
                    unknown 0 displaced 0 torn 0\n\
                    marked 0 bytes 0\n\
                    leaked 1 bytes 32\n\
                    heads 1\n\
                    caller 1 32 1 ./a.out:[0x401136]\n\
                    leak 0x10100 32 1 head ./a.out:[0x401136]\n";

/// The report of one block that is held.
pub(crate) const HELD: &str = "blocks 1 bytes 32\n\
                    undumped 0\n\
                    unknown 0 displaced 0 torn 0\n\
                    marked 1 bytes 32\n\
                    leaked 0 bytes 0\n\
                    heads 0\n";

/// What `find_alone` answers of a core and a log, if it is to give the report.
fn find(
    alloc: Global,
    core: &[u8],
    log: &str,
    skip: Skip,
    lists_misfits: bool,
    report: &str,
) -> Answer {
    let rules = Rules {
        skip,
        ..Rules::usual()
    };
    let found = find_alone(alloc, core, log.as_bytes(), rules, lists_misfits);
    answer_of(found, report)
}

/// `find_alone` of one lost block.
pub(crate) fn alone(alloc: Global) -> Option<Answer> {
    let core = core_of(alloc, &[])?;
    let skip = Skip::usual();
    Some(find(alloc, core.as_slice(), ONE_BLOCK, skip, false, LOST))
}

/// `find_alone` of one block that a vector register holds.
pub(crate) fn vectors(alloc: Global) -> Option<Answer> {
    let core = vector_core(alloc)?;
    let skip = Skip::usual();
    Some(find(alloc, core.as_slice(), ONE_BLOCK, skip, false, HELD))
}

/// The report of a block that only a word in freed memory leads to.
const UNFREED: &str = "blocks 1 bytes 16\n\
                       undumped 0\n\
                       unknown 0 displaced 0 torn 0\n\
                       freed 4\n\
                       marked 0 bytes 0\n\
                       leaked 1 bytes 16\n\
                       heads 1\n\
                       caller 1 16 1 ?\n\
                       leak 0x10200 16 2 head ?\n";

/// `find_alone` without freed memory, of a block that only a word there leads to.
pub(crate) fn unfreed(alloc: Global) -> Option<Answer> {
    let core = core_of(alloc, &[(0x10108, 0x10200)])?;
    let skip = Skip {
        freed: true,
        ..Skip::usual()
    };
    Some(find(
        alloc,
        core.as_slice(),
        "+ 0x10100 0x20\n+ 0x10200 0x10\n- 0x10100\n",
        skip,
        false,
        UNFREED,
    ))
}

/// The report of one lost block that has no chunk in the core, which tells so.
const MISFIT: &str = "blocks 1 bytes 32\n\
                      undumped 0\n\
                      unknown 0 displaced 0 torn 0\n\
                      marked 0 bytes 0\n\
                      leaked 1 bytes 32\n\
                      heads 1\n\
                      misfits 1\n\
                      caller 1 32 1 ./a.out:[0x401136]\n\
                      leak 0x10100 32 1 head ./a.out:[0x401136]\n\
                      misfit 0x10100 32 1 ./a.out:[0x401136]\n";

/// `find_alone` that tells misfits, of one lost block.
pub(crate) fn checked(alloc: Global) -> Option<Answer> {
    let core = core_of(alloc, &[])?;
    let skip = Skip::usual();
    Some(find(alloc, core.as_slice(), ONE_BLOCK, skip, true, MISFIT))
}

/// The report of two blocks, to one of which malloc's link to a free chunk alone leads.
const UNLINKED: &str = "blocks 2 bytes 48\n\
                        undumped 0\n\
                        unknown 0 displaced 0 torn 0\n\
                        marked 1 bytes 16\n\
                        leaked 1 bytes 32\n\
                        heads 1\n\
                        caller 1 32 1 ?\n\
                        leak 0x10100 32 1 head ?\n";

/// `find_alone` of these blocks without links to free chunks.
pub(crate) fn unlinked(alloc: Global) -> Option<Answer> {
    let words = [
        (0x100f8, 0x31),
        (0x10008, 0x10120),
        (0x10010, 0x10200),
        (0x10138, 0xfff8),
    ];
    let core = core_of(alloc, &words)?;
    let skip = Skip {
        links: true,
        ..Skip::usual()
    };
    Some(find(
        alloc,
        core.as_slice(),
        "+ 0x10100 0x20\n+ 0x10200 0x10\n",
        skip,
        false,
        UNLINKED,
    ))
}

/// The report of two blocks to which only words in slack lead.
const UNSLACKED: &str = "blocks 2 bytes 24\n\
                         undumped 0\n\
                         unknown 0 displaced 0 torn 0\n\
                         marked 0 bytes 0\n\
                         leaked 2 bytes 24\n\
                         heads 2\n\
                         caller 2 24 2 ?\n\
                         leak 0x10100 8 1 head ?\n\
                         leak 0x10200 16 2 head ?\n";

/// `find_alone` without slack, of two blocks to which only words there lead.
pub(crate) fn unslacked(alloc: Global) -> Option<Answer> {
    let words = [
        (0x100f8, 0x21),
        (0x10108, 0x10200),
        (0x10110, 0x10100),
        (0x10118, 0x21),
    ];
    let core = core_of(alloc, &words)?;
    let skip = Skip {
        slack: true,
        ..Skip::usual()
    };
    Some(find(
        alloc,
        core.as_slice(),
        "+ 0x10100 0x8\n+ 0x10200 0x10\n",
        skip,
        false,
        UNSLACKED,
    ))
}

/// The report of a block to which only a word in dead stack leads.
const UNDEAD: &str = "blocks 1 bytes 32\n\
                      undumped 0\n\
                      unknown 0 displaced 0 torn 0\n\
                      dead 252\n\
                      marked 0 bytes 0\n\
                      leaked 1 bytes 32\n\
                      heads 1\n\
                      caller 1 32 1 ./a.out:[0x401136]\n\
                      leak 0x10100 32 1 head ./a.out:[0x401136]\n";

/// `find_alone` without dead stack, of a block to which only a word there leads.
pub(crate) fn undead(alloc: Global) -> Option<Answer> {
    let core = stack_core(alloc)?;
    let skip = Skip {
        dead: true,
        ..Skip::usual()
    };
    Some(find(alloc, core.as_slice(), ONE_BLOCK, skip, false, UNDEAD))
}
