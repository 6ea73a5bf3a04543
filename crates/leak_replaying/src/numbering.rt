//! The texts of callers are numbered while their log passes.

ghost use Rattle.std.specs.Prelude.{◌≡◌, ◌≤◌, ◌<◌, length, drop, OnOk};
ghost use Rattle.std.specs.List.{AllByRecursion};
ghost use Rattle.leak_replaying.specs.Numbering.{IsBehind, NumbersMore, moved_back};

use leak_blocks::Block;
use leak_report::caller_text;
use leak_texts::TextTable;
use std::alloc::AllocError;

/// The caller's range in a window of the log that begins behind so many bytes. `(0, 0)` for none.
fn moved_back(caller: (usize, usize), before: usize) -> (usize, usize)
    requires { caller.0 < caller.1 → before ≤ caller.0 }
    ensures { result ≡ moved_back before caller }
{
    if caller.0 < caller.1 {
        (caller.0 - before, caller.1 - before)
    } else {
        (0, 0)
    }
}

/// Numbers the texts of the blocks' callers, which are in the window of the log that begins behind so many bytes.
pub(crate) fn number_callers(
    texts: &mut TextTable,
    numbers: &mut Vec<u32>,
    blocks: &[Block],
    window: &[u8],
    before: usize,
) -> Result<(), AllocError>
    requires { AllByRecursion (λ b. IsBehind before (length window.now) b.caller) blocks.now }
    ensures { OnOk result (NumbersMore before window.now blocks.now
        texts.old numbers.old.items texts.new numbers.new.items) }
{
    for block in blocks {
        let text = caller_text(window, moved_back(block.caller, before));
        numbers.push(texts.number(text)?)?;
    }
    Ok(())
}

/// Lets go of so many bytes at the front.
pub(crate) fn drop_front(bytes: &mut Vec<u8>, count: usize)
    requires { count ≤ length bytes.old.items }
    ensures { bytes.new.items ≡ drop count bytes.old.items }
{
    bytes.copy_within(count.., 0);
    bytes.truncate(bytes.len() - count);
}
