//! Examples of a hundred blocks, which loops write.

use crate::samples::{Part, core_of, set_word};
use std::alloc::{AllocError, Global};
use std::test::Fail;

/// A core and its log.
#[derive(Drop)]
pub struct Sample {
    pub core: Vec<u8>,
    pub log: String,
}

/// The report of the chain of a hundred.
pub const CHAIN: &str = "blocks 100 bytes 1600\n\
                         undumped 0\n\
                         unknown 0 displaced 0 torn 0\n\
                         marked 100 bytes 1600\n\
                         leaked 0 bytes 0\n\
                         heads 0\n";

/// The report of the star of a hundred and one.
pub const STAR: &str = "blocks 101 bytes 1600\n\
                        undumped 0\n\
                        unknown 0 displaced 0 torn 0\n\
                        marked 101 bytes 1600\n\
                        leaked 0 bytes 0\n\
                        heads 0\n";

/// A hundred blocks of 16 bytes, each except the last holding the start of the next.
pub fn chain(alloc: Global) -> Result<Sample, Fail> {
    let mut core = core_of(alloc, &[Part::Word(0x10008, 0x10200)])?;
    let mut log = String::new(alloc);
    for i in 0..100u64 {
        let start = 0x10200 + 0x20 * i;
        push_block(&mut log, start, 0x10)?;
        if i < 99 {
            set_word(&mut core, start, start + 0x20);
        }
    }
    Ok(Sample { core, log })
}

/// A block of 400 bytes with 50 pointers to blocks of 16 bytes, each with a pointer to a block of 8 bytes.
pub fn star(alloc: Global) -> Result<Sample, Fail> {
    let mut core = core_of(alloc, &[Part::Word(0x10008, 0x10200)])?;
    let mut log = String::new(alloc);
    push_block(&mut log, 0x10200, 0x190)?;
    for i in 0..50u64 {
        let near = 0x10400 + 0x20 * i;
        let far = 0x10b00 + 0x10 * i;
        push_block(&mut log, near, 0x10)?;
        push_block(&mut log, far, 8)?;
        set_word(&mut core, 0x10200 + 8 * i, near);
        set_word(&mut core, near, far);
    }
    Ok(Sample { core, log })
}

fn push_block(log: &mut String, start: u64, size: u64) -> Result<(), AllocError> {
    writeln!(log, "+ 0x{start:x} 0x{size:x}")
}
