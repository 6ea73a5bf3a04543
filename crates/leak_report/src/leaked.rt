//! Leaked blocks.
ghost use Rattle.std.specs.Prelude.{◌≡◌, ◌^◌, ◌<◌, length, IfOk};
ghost use Rattle.leak_report.specs.Totals.{bytes_in, heads_in, leaks_in};
ghost use Rattle.leak_report.specs.Sites.{HaveSites, sited};

use crate::caller_texts::CallerTexts;
use crate::totals::count_clear;
use leak_blocks::Block;
use std::alloc::{AllocError, Global};

/// A leaked block.
#[derive(Clone, Copy, Debug, PartialEq, Eq)]
pub struct Leak {
    /// The block, with its caller as a range of the bytes that have the texts.
    pub block: Block,
    /// Whether it is a head.
    pub head: bool,
}

/// The blocks that the set leaves out, of which the heads are those with that entry. Few blocks leak, and the others are not
/// read.
pub(crate) fn leaks_of(
    alloc: Global,
    blocks: &[Block],
    set: &[bool],
    heads: &[bool],
    callers: CallerTexts<'_>,
) -> Result<Vec<Leak>, AllocError>
    requires one_each { length set.now ≡ length blocks.now }
    requires an_entry_each { length heads.now ≡ length blocks.now }
    requires sites { HaveSites callers (length blocks.now) }
    ensures { IfOk result (λ leaks.
        leaks.items ≡ leaks_in set.now heads.now (sited callers.entry blocks.now)) }
{
    let mut leaks = Vec::with_capacity(alloc, count_clear(set) as usize)?;
    for (i, marked) in set.iter().enumerate() {
        if !*marked {
            let block = callers.site(blocks, i);
            let head = heads[i];
            leaks.push(Leak { block, head })?;
        }
    }
    Ok(leaks)
}

/// The sum of the sizes of leaked blocks.
pub(crate) fn leaked_bytes(leaks: &[Leak]) -> u64
    requires { bytes_in leaks.now < 2 ^ 64 }
    ensures { result ≡ bytes_in leaks.now }
{
    let mut bytes = 0;
    for leak in leaks {
        bytes += leak.block.size;
    }
    bytes
}

/// The number of the heads among leaked blocks.
pub(crate) fn count_heads(leaks: &[Leak]) -> u64
    ensures { result ≡ heads_in leaks.now }
{
    leaks.iter().filter(|leak| leak.head).count() as u64
}
