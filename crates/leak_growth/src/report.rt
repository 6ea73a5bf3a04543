//! The report.
ghost use Rattle.std.specs.Prelude.{◌≡◌, ◌+◌, ◌++◌, ◌^◌, ◌<◌, length, flat_map, map, string_bytes, IfOk, OnOk};
ghost use Rattle.leak_report.specs.Totals.{HaveCallersIn};
ghost use Rattle.leak_growth.specs.Rows.{new_of, plain};
ghost use Rattle.leak_growth.specs.Lines.{growth_line};
ghost use Rattle.leak_growth.specs.Report.{report_of, sums_of_logs};

use crate::growing::growths;
use crate::lines::{push_counts, push_row, push_sizes};
use crate::rows::Row;
use crate::summing::{Sizes, sum_of};
use leak_blocks::Live;
use std::alloc::{AllocError, Global};

/// Two logs of one process and what they come to.
#[derive(Clone, Copy)]
pub struct Logs<'a> {
    /// The first log.
    pub log1: &'a [u8],
    /// Its live blocks.
    pub earlier: &'a Live,
    /// The second log.
    pub log2: &'a [u8],
    /// Its live blocks.
    pub later: &'a Live,
    /// How many of the second log's lines are torn.
    pub torn: u64,
    /// How many lines the first log has.
    pub after: usize,
}

/// Appends the rows.
fn push_rows(alloc: Global, out: &mut Vec<u8>, rows: &[Row]) -> Result<(), AllocError>
    ensures { OnOk result (out.new.items ≡ out.old.items
        ++ flat_map growth_line (map plain rows.now)) }
{
    let mut buffer = String::new(alloc);
    for row in rows {
        push_row(out, &mut buffer, row)?;
    }
    Ok(())
}

/// The lines before the rows.
fn sums(alloc: Global, logs: &Logs) -> Result<String, AllocError>
    ensures { let l = logs.now in IfOk result (λ out. string_bytes out
        ≡ sums_of_logs l.earlier.now l.later.now l.torn l.after) }
{
    let Logs {
        earlier,
        later,
        torn,
        after,
        ..
    } = *logs;
    let then = Sizes {
        blocks: earlier.blocks().len() as u64,
        bytes: earlier.bytes(),
    };
    let bytes = later.bytes();
    let now = Sizes {
        blocks: later.blocks().len() as u64,
        bytes,
    };
    let new = sum_of(later.blocks(), after);
    let mut out = String::new(alloc);
    push_sizes(&mut out, "then", then)?;
    push_sizes(&mut out, "now", now)?;
    push_sizes(&mut out, "new", new)?;
    push_counts(&mut out, later.unknown(), later.displaced(), torn)?;
    Ok(out)
}

/// The report of two logs.
pub fn text(alloc: Global, logs: &Logs) -> Result<Vec<u8>, AllocError>
    requires first_in_log { let l = logs.now in HaveCallersIn l.log1.now l.earlier.now.blocks }
    requires second_in_log { let l = logs.now in HaveCallersIn l.log2.now l.later.now.blocks }
    requires few { let l = logs.now in
        length l.earlier.now.blocks + length l.later.now.blocks < 2 ^ 32 }
    requires first_numbered { let l = logs.now in
        new_of 0 l.earlier.now.blocks ≡ l.earlier.now.blocks }
    requires second_numbered { let l = logs.now in
        new_of 0 l.later.now.blocks ≡ l.later.now.blocks }
    ensures { let l = logs.now in IfOk result (λ out. out.items
        ≡ report_of l.log1.now l.earlier.now l.log2.now l.later.now l.torn l.after) }
{
    let Logs {
        log1,
        earlier,
        log2,
        later,
        after,
        ..
    } = *logs;
    let rows = growths(alloc, log1, earlier.blocks(), log2, later.blocks(), after)?;
    let mut out = sums(alloc, logs)?.into_bytes();
    push_rows(alloc, &mut out, rows.as_slice())?;
    Ok(out)
}
