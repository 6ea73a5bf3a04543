//! The texts of the callers of blocks.
ghost use Rattle.std.specs.Prelude.{◌≡◌, ◌++◌, ◌^◌, ◌<◌, length, IfOk, OnOk};
ghost use Rattle.leak_report.specs.Totals.{HaveCallersIn};
ghost use Rattle.leak_report.specs.Numbered.{AreTexts, bytes_each, texts_of};

use crate::lines::caller_text;
use crate::meeting::meet_callers;
use crate::numbering::in_order;
use crate::texts::Texts;
use leak_blocks::Block;
use std::alloc::{AllocError, Global};

/// Appends the texts of the callers of blocks, whose ranges are of the log.
pub fn push_texts<'a>(
    out: &mut Vec<&'a [u8]>,
    blocks: &[Block],
    log: &'a [u8],
) -> Result<(), AllocError>
    requires { HaveCallersIn log.now blocks.now }
    ensures { OnOk result (bytes_each out.new.items
        ≡ bytes_each out.old.items ++ texts_of log.now blocks.now) }
{
    for block in blocks {
        out.push(caller_text(log, block.caller))?;
    }
    Ok(())
}

/// Numbers the texts of the callers of blocks, whose ranges are of the log, in the order of their bytes.
///
/// While it runs it takes four bytes for each block, and about 80 for each text.
pub fn number_texts<'a>(
    alloc: Global,
    blocks: &[Block],
    log: &'a [u8],
) -> Result<Texts<'a>, AllocError>
    requires in_log { HaveCallersIn log.now blocks.now }
    requires few { length blocks.now < 2 ^ 32 }
    ensures { IfOk result (λ numbered. AreTexts log.now blocks.now
        (bytes_each numbered.texts.items) numbered.numbers.items) }
{
    in_order(alloc, meet_callers(alloc, blocks, log)?)
}
