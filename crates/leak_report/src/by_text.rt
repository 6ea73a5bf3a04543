//! Rows of leaked blocks in the order of their callers' texts.
ghost use Rattle.std.specs.Prelude.{◌≡◌, IfOk};
ghost use Rattle.leak_report.specs.Listing.{AreByText, AreRanked, IsComplete, order_after};

use crate::grouping::{Key, first_row, grouped_rows, leaks_by_place, longer_row};
use crate::leaked::Leak;
use crate::lines::caller_text;
use crate::totals::CallerRow;
use std::alloc::{AllocError, Global};
use std::cmp::{Ordering, Reverse};

/// Leaked blocks, and the log that their callers are ranges of.
#[derive(Clone, Copy)]
pub(crate) struct Leaked<'a> {
    /// The bytes after which the eight that give a text its place begin.
    pub(crate) prefix: &'a [u8],
    pub(crate) leaks: &'a [Leak],
    pub(crate) log: &'a [u8],
}

/// How the last key, if there is one, compares with the next. Any key may be the first.
fn order(last: Option<Key>, key: Key) -> Ordering
    ensures { result ≡ order_after last.entry key.entry }
{
    match last {
        None => Ordering::Less,
        Some(last) => last.cmp(&key),
    }
}

/// The rows of the leaked blocks, in the order of their texts.
///
/// If the keys of the blocks by place ascend, those of one text follow one another, and no map is needed. Only texts that
/// differ and have one place may be in another order.
fn rows_by_text(alloc: Global, leaked: &Leaked) -> Result<Vec<CallerRow>, AllocError>
    requires { IsComplete leaked.now }
    ensures { let l = leaked.now in
        IfOk result (λ rows. AreByText l.prefix.now l.log.now l.leaks.now rows.items) }
{
    let Leaked { prefix, leaks, log } = *leaked;
    let placed = leaks_by_place(alloc, prefix, leaks, log)?;
    let mut rows = Vec::new(alloc);
    let mut last = None;
    for at in placed.as_slice() {
        let leak = &leaks[at.number];
        let key = (at.place, caller_text(log, leak.block.caller));
        match order(last, key) {
            Ordering::Less => {
                rows.push(first_row(leak))?;
                last = Some(key);
            }
            Ordering::Equal => {
                let end = rows.len() - 1;
                rows[end] = longer_row(rows[end], leak);
            }
            Ordering::Greater => return grouped_rows(alloc, leaked, placed.as_slice()),
        }
    }
    Ok(rows)
}

/// The rows of the leaked blocks, the most bytes first. Those with equal bytes stay in the order of their texts, since the
/// sort is stable.
pub(crate) fn ranked_rows(alloc: Global, leaked: &Leaked) -> Result<Vec<CallerRow>, AllocError>
    requires { IsComplete leaked.now }
    ensures { let l = leaked.now in
        IfOk result (λ rows. AreRanked l.prefix.now l.log.now l.leaks.now rows.items) }
{
    let mut rows = rows_by_text(alloc, leaked)?;
    rows.sort_by_key(|row| Reverse(row.bytes))?;
    Ok(rows)
}
