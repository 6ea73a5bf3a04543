//! The texts of which blocks grew or shrank, or were allocated anew.
ghost use Rattle.std.specs.Prelude.{◌≡◌, ◌+◌, ◌-◌, ◌^◌, ◌<◌, length, map, filter, IfOk};
ghost use Rattle.leak_report.specs.Numbered.{bytes_each};
ghost use Rattle.leak_growth.specs.Rows.{is_changed, raised, rows_with, AreRanked};

use crate::summing::Sizes;
use std::alloc::{AllocError, Global};
use std::cmp::Reverse;

/// What became of the blocks of one text.
#[derive(Clone, Copy)]
pub struct Row<'a> {
    /// The text.
    pub text: &'a [u8],
    /// Its blocks that were live in log 1.
    pub earlier: Sizes,
    /// Its blocks that are live in log 2.
    pub later: Sizes,
    /// Those of them whose line comes after log 1.
    pub new: Sizes,
}

/// 2^64.
const RAISE: u128 = 0x1_0000_0000_0000_0000;

/// By how many bytes the row grew, and 2^64 more, so that it is no less than 0.
fn raised(row: &Row) -> u128
    ensures { result ≡ raised row.now }
{
    RAISE + u128::from(row.later.bytes) - u128::from(row.earlier.bytes)
}

/// Whether a block is new, or there are not as many as before.
fn is_changed(row: &Row) -> bool
    ensures { result ≡ is_changed row.now }
{
    row.new.blocks != 0 || row.later.blocks != row.earlier.blocks
}

/// The rows of the texts, without those that didn't change. There is an entry for each text in each list.
fn changed_rows<'a>(
    alloc: Global,
    texts: &[&'a [u8]],
    earlier: &[Sizes],
    later: &[Sizes],
    new: &[Sizes],
) -> Result<Vec<Row<'a>>, AllocError>
    requires earlier_each { length earlier.now ≡ length texts.now }
    requires later_each { length later.now ≡ length texts.now }
    requires new_each { length new.now ≡ length texts.now }
    ensures { IfOk result (λ rows. rows.items
        ≡ filter is_changed (rows_with texts.now earlier.now later.now new.now)) }
{
    let mut rows = Vec::new(alloc);
    for (i, text) in texts.iter().enumerate() {
        let row = Row {
            text: *text,
            earlier: earlier[i],
            later: later[i],
            new: new[i],
        };
        if is_changed(&row) {
            rows.push(row)?;
        }
    }
    Ok(rows)
}

/// The rows of the texts that changed, by growth, the greatest first. Those of equal growth stay in the order of their texts.
pub(crate) fn ranked_rows<'a>(
    alloc: Global,
    texts: &[&'a [u8]],
    earlier: &[Sizes],
    later: &[Sizes],
    new: &[Sizes],
) -> Result<Vec<Row<'a>>, AllocError>
    requires earlier_each { length earlier.now ≡ length texts.now }
    requires later_each { length later.now ≡ length texts.now }
    requires new_each { length new.now ≡ length texts.now }
    ensures { IfOk result (λ rows. AreRanked
        (filter is_changed (rows_with texts.now earlier.now later.now new.now)) rows.items) }
{
    let mut rows = changed_rows(alloc, texts, earlier, later, new)?;
    rows.sort_by_key(|row| Reverse(raised(row)))?;
    Ok(rows)
}
