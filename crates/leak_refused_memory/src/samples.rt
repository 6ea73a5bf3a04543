//! Cores and logs for the calls.

use leak_blocks::{Live, replay};
use leak_elf::core_k;
use leak_mtrace::Log;
use std::alloc::Global;

/// One allocation of 32 bytes.
pub(crate) const ONE_BLOCK: &str = "@ ./a.out:[0x401136] + 0x10100 0x20\n";

/// Four blocks of three callers.
pub(crate) const FOUR_CALLERS: &str = "@ a:[0x1] + 0x10100 0x20\n\
                                       @ c:[0x3] + 0x10200 0x10\n\
                                       @ c:[0x3] + 0x10300 0x18\n\
                                       @ b:[0x2] + 0x10400 0x28\n";

/// Two blocks; and the same log later, when the first was moved to where it was.
pub(crate) const TWO_BLOCKS: &str = "+ 0x10100 0x20\n+ 0x10200 0x10\n";

pub(crate) const MOVED: &str = "+ 0x10100 0x20\n+ 0x10200 0x10\n< 0x10100\n> 0x10100 0x20\n";

/// Words of the sample core, each by its address, and a log.
#[derive(Drop)]
pub(crate) struct Sample {
    pub core: Vec<u8>,
    pub log: String,
}

/// Replaces the bytes from the file offset on.
pub(crate) fn set(core: &mut Vec<u8>, at: u64, bytes: &[u8]) {
    for (place, byte) in core.iter_mut().skip(at as usize).zip(bytes) {
        *place = *byte;
    }
}

/// The sample core with the words set.
pub(crate) fn core_of(alloc: Global, words: &[(u64, u64)]) -> Option<Vec<u8>> {
    let mut core = core_k(alloc, &[]).ok()?;
    for (addr, word) in words {
        set(&mut core, addr.saturating_sub(0xf000), &word.to_le_bytes());
    }
    Some(core)
}

/// The sample core with vector registers after its thread status, of which the upper half of xmm0 leads to the one block.
pub(crate) fn vector_core(alloc: Global) -> Option<Vec<u8>> {
    let mut core = core_of(alloc, &[])?;
    set(&mut core, 96, &888u64.to_le_bytes());
    set(
        &mut core,
        532,
        b"\x05\0\0\0\0\x02\0\0\x02\0\0\0CORE\0\0\0\0",
    );
    set(&mut core, 720, &0x10100u64.to_le_bytes());
    Some(core)
}

/// The sample core with a word that leads to the one block, in a stack below rsp: the stack of a thread is the segment, by its
/// record, and by AT_RANDOM in an auxiliary vector after its status.
pub(crate) fn stack_core(alloc: Global) -> Option<Vec<u8>> {
    let words = [(0x10008, 0x10100), (0x10f10, 0x10000), (0x10f18, 0x1000)];
    let mut core = core_of(alloc, &words)?;
    set(&mut core, 96, &392u64.to_le_bytes());
    set(&mut core, 460, &0x10800u64.to_le_bytes());
    set(&mut core, 476, &0x10f00u64.to_le_bytes());
    set(
        &mut core,
        532,
        b"\x05\0\0\0\x10\0\0\0\x06\0\0\0CORE\0\0\0\0\x19\0\0\0\0\0\0\0",
    );
    set(&mut core, 560, &0x10ff0u64.to_le_bytes());
    Some(core)
}

/// The live blocks of the log.
pub(crate) fn live_of(alloc: Global, log: &str) -> Option<Live> {
    let log = Log::read(alloc, log.as_bytes()).ok()?;
    replay(alloc, &log).ok()
}

fn push_block(log: &mut String, start: u64, size: u64) -> Option<()> {
    writeln!(log, "+ 0x{start:x} 0x{size:x}").ok()
}

/// A hundred blocks of 16 bytes, each except the last holding the start of the next.
pub(crate) fn chain(alloc: Global) -> Option<Sample> {
    let mut core = core_of(alloc, &[(0x10008, 0x10200)])?;
    let mut log = String::new(alloc);
    for i in 0..100u64 {
        let start = 0x10200 + 0x20 * i;
        push_block(&mut log, start, 0x10)?;
        if i < 99 {
            set(&mut core, start - 0xf000, &(start + 0x20).to_le_bytes());
        }
    }
    Some(Sample { core, log })
}

/// A block of 400 bytes with 50 pointers to blocks of 16 bytes, each with a pointer to a block of 8 bytes.
pub(crate) fn star(alloc: Global) -> Option<Sample> {
    let mut core = core_of(alloc, &[(0x10008, 0x10200)])?;
    let mut log = String::new(alloc);
    push_block(&mut log, 0x10200, 0x190)?;
    for i in 0..50u64 {
        let near = 0x10400 + 0x20 * i;
        let far = 0x10b00 + 0x10 * i;
        push_block(&mut log, near, 0x10)?;
        push_block(&mut log, far, 8)?;
        set(&mut core, 0x1200 + 8 * i, &near.to_le_bytes());
        set(&mut core, near - 0xf000, &far.to_le_bytes());
    }
    Some(Sample { core, log })
}
