//! The lines of misfits: live blocks of which the core has no chunk in use.
ghost use Rattle.std.specs.Prelude.{◌≡◌, ◌++◌, length, flat_map, string_bytes, IfSome, OnOk, option_copied};
ghost use Rattle.leak_report.specs.Totals.{HaveCallersIn};
ghost use Rattle.leak_report.specs.Sites.{HaveSites, bytes_at, sited};
ghost use Rattle.leak_report.specs.Misfits.{misfits_in, misfit_sums, misfit_line, misfit_lines};

use crate::caller_texts::CallerTexts;
use crate::lines::{push_misfit, push_misfit_number};
use crate::totals::count_clear;
use leak_blocks::Block;
use std::alloc::{AllocError, Global};

/// Appends the line of the number of misfits, if it is given which blocks fit.
pub fn push_number(
    out: &mut String,
    blocks: &[Block],
    fits: Option<&[bool]>,
) -> Result<(), AllocError>
    requires { IfSome fits (λ f. length f.now ≡ length blocks.now) }
    ensures { OnOk result (string_bytes out.new ≡
        string_bytes out.old ++ misfit_sums (option_copied fits.entry) blocks.now) }
{
    match fits {
        Some(fits) => push_misfit_number(out, count_clear(fits)),
        None => Ok(()),
    }
}

/// Appends the lines of the misfits, if it is given which blocks fit.
pub fn push_misfits(
    alloc: Global,
    out: &mut Vec<u8>,
    blocks: &[Block],
    fits: Option<&[bool]>,
    callers: CallerTexts<'_>,
) -> Result<(), AllocError>
    requires one_each { IfSome fits (λ f. length f.now ≡ length blocks.now) }
    requires sites { HaveSites callers (length blocks.now) }
    requires in_bytes { HaveCallersIn (bytes_at callers) (sited callers blocks.now) }
    ensures { OnOk result (out.new.items ≡ out.old.items
        ++ misfit_lines (bytes_at callers.entry) (option_copied fits.entry)
        (sited callers.entry blocks.now)) }
{
    match fits {
        Some(fits) => push_each(alloc, out, blocks, fits, callers),
        None => Ok(()),
    }
}

/// Appends the lines of the blocks that don't fit.
fn push_each(
    alloc: Global,
    out: &mut Vec<u8>,
    blocks: &[Block],
    fits: &[bool],
    callers: CallerTexts<'_>,
) -> Result<(), AllocError>
    requires one_each { length fits.now ≡ length blocks.now }
    requires sites { HaveSites callers (length blocks.now) }
    requires in_bytes { HaveCallersIn (bytes_at callers) (sited callers blocks.now) }
    ensures { OnOk result (out.new.items ≡ out.old.items
        ++ flat_map (misfit_line (bytes_at callers.entry))
        (misfits_in fits.now (sited callers.entry blocks.now))) }
{
    let bytes = callers.bytes();
    let mut buffer = String::new(alloc);
    for (i, fit) in fits.iter().enumerate() {
        if !*fit {
            let block = callers.site(blocks, i);
            push_misfit(out, &mut buffer, &block, bytes)?;
        }
    }
    Ok(())
}
