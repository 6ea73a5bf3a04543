//! Blocks in sum, by the numbers of their texts.
ghost use Rattle.std.specs.Prelude.{◌≡◌, ◌+◌, ◌^◌, ◌<◌, IfOk};
ghost use Rattle.leak_report.specs.Totals.{bytes_of};
ghost use Rattle.leak_report.specs.Numbered.{bytes_each};
ghost use Rattle.leak_growth.specs.Rows.{new_of, sizes_of, with_block, sums_of, AreTextsOf};

use leak_blocks::Block;
use std::alloc::{AllocError, Global};

/// Blocks in sum.
#[derive(Clone, Copy, Debug, PartialEq, Eq)]
pub struct Sizes {
    /// The number of the blocks.
    pub blocks: u64,
    /// The sum of their sizes, in bytes.
    pub bytes: u64,
}

/// The sum with one more block.
fn longer(sum: Sizes, block: &Block) -> Sizes
    requires blocks { sum.blocks + 1 < 2 ^ 64 }
    requires bytes { sum.bytes + block.now.size < 2 ^ 64 }
    ensures { result ≡ with_block sum block.now }
{
    Sizes {
        blocks: sum.blocks + 1,
        bytes: sum.bytes + block.size,
    }
}

/// The blocks of each text in sum, of those whose line comes after this many.
pub(crate) fn sums(
    alloc: Global,
    texts: &[&[u8]],
    numbers: &[u32],
    blocks: &[Block],
    log: &[u8],
    after: usize,
) -> Result<Vec<Sizes>, AllocError>
    requires texts { AreTextsOf log.now blocks.now (bytes_each texts.now) numbers.now }
    requires fits { bytes_of blocks.now < 2 ^ 64 }
    ensures { IfOk result (λ sums. sums.items ≡
        sums_of log.now blocks.now after (bytes_each texts.now)) }
{
    let mut sums = vec![in alloc; Sizes {
        blocks: 0,
        bytes: 0
    }; texts.len()]?;
    for (i, block) in blocks.iter().enumerate() {
        if after < block.line {
            let number = numbers[i] as usize;
            sums[number] = longer(sums[number], block);
        }
    }
    Ok(sums)
}

/// The blocks whose line comes after this many, in sum.
pub(crate) fn sum_of(blocks: &[Block], after: usize) -> Sizes
    requires { bytes_of blocks.now < 2 ^ 64 }
    ensures { result ≡ sizes_of (new_of after blocks.now) }
{
    let mut sum = Sizes {
        blocks: 0,
        bytes: 0,
    };
    for block in blocks {
        if after < block.line {
            sum = longer(sum, block);
        }
    }
    sum
}
