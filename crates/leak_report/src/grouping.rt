//! Leaked blocks by the text of their caller.
ghost use Rattle.std.specs.Prelude.{◌≡◌, None, Some, IfOk, OnOk, IfSome};
ghost use Rattle.std.specs.BTreeMap.{get, values, IsOrdered};
ghost use Rattle.leak_report.specs.Totals.{AreLeaksIn};
ghost use Rattle.leak_report.specs.Groups.{HasRoom, HasLeakAdded, with_leak, order_of_keys, AreGroups};
ghost use Rattle.leak_report.specs.Listing.{ArePlaced, AreByPlace, AreByText, IsComplete};

use crate::by_text::Leaked;
use crate::leaked::Leak;
use crate::lines::caller_text;
use crate::places::place;
use crate::totals::CallerRow;
use std::alloc::{AllocError, Global};
use std::collections::BTreeMap;

/// The place of a text, and the text. Keys are in the order of their texts, few of which are compared.
pub(crate) type Key<'a> = (u64, &'a [u8]);

/// The row of one leaked block.
pub(crate) fn first_row(leak: &Leak) -> CallerRow
    ensures { result ≡ with_leak None leak.now }
{
    let one = u64::from(leak.head);
    CallerRow {
        blocks: 1,
        bytes: leak.block.size,
        heads: one,
        caller: leak.block.caller,
    }
}

/// The row with one more leaked block.
pub(crate) fn longer_row(row: CallerRow, leak: &Leak) -> CallerRow
    requires { HasRoom row leak.now.block }
    ensures { result ≡ with_leak (Some row) leak.now }
{
    let one = u64::from(leak.head);
    CallerRow {
        blocks: row.blocks + 1,
        bytes: row.bytes + leak.block.size,
        heads: row.heads + one,
        caller: row.caller,
    }
}

/// Adds a leaked block to the row of its caller's text, or begins that row with it.
fn add<'a>(
    groups: &mut BTreeMap<Key<'a>, CallerRow>,
    key: Key<'a>,
    leak: &Leak,
) -> Result<(), AllocError>
    requires { IfSome (get order_of_keys groups.old key) (λ row. HasRoom row leak.now.block) }
    ensures { OnOk result (HasLeakAdded groups.old groups.new key.entry leak.now) }
{
    // One search if the text is new, as most are if there are many.
    let Some(row) = groups.insert(key, first_row(leak))? else {
        return Ok(());
    };
    groups.insert(key, longer_row(row, leak))?;
    Ok(())
}

/// A leaked block.
#[derive(Clone, Copy)]
pub(crate) struct PlacedLeak {
    /// The place of its caller's text.
    pub(crate) place: u64,
    /// Its number among the leaked blocks.
    pub(crate) number: usize,
}

/// The leaked blocks with the places of their texts, by ascending number.
fn leaks_with_places(
    alloc: Global,
    prefix: &[u8],
    leaks: &[Leak],
    log: &[u8],
) -> Result<Vec<PlacedLeak>, AllocError>
    requires { AreLeaksIn log.now leaks.now }
    ensures { IfOk result (λ placed. ArePlaced prefix.now log.now leaks.now placed.items) }
{
    let mut placed = Vec::with_capacity(alloc, leaks.len())?;
    for (number, leak) in leaks.iter().enumerate() {
        let place = place(prefix, caller_text(log, leak.block.caller));
        placed.push(PlacedLeak { place, number })?;
    }
    Ok(placed)
}

/// The leaked blocks by ascending place. Those of one place stay in order, and so do those of one text.
pub(crate) fn leaks_by_place(
    alloc: Global,
    prefix: &[u8],
    leaks: &[Leak],
    log: &[u8],
) -> Result<Vec<PlacedLeak>, AllocError>
    requires { AreLeaksIn log.now leaks.now }
    ensures { IfOk result (λ placed. AreByPlace prefix.now log.now leaks.now placed.items) }
{
    let mut placed = leaks_with_places(alloc, prefix, leaks, log)?;
    placed.sort_by_key(|leak| leak.place)?;
    Ok(placed)
}

/// The rows of the leaked blocks, by the text of their caller and its place by the prefix.
///
/// Keys that ascend are put at the map's end one after another, however many there are.
fn leaked_groups<'a>(
    alloc: Global,
    leaked: &Leaked<'a>,
    placed: &[PlacedLeak],
) -> Result<BTreeMap<Key<'a>, CallerRow>, AllocError>
    requires complete { IsComplete leaked.now }
    requires by_place { let l = leaked.now in
        AreByPlace l.prefix.now l.log.now l.leaks.now placed.now }
    ensures { let l = leaked.now in
        IfOk result (AreGroups l.prefix.now l.log.now l.leaks.now) }
{
    let Leaked { leaks, log, .. } = *leaked;
    let mut groups = BTreeMap::new(alloc);
    for at in placed {
        let leak = &leaks[at.number];
        let key = (at.place, caller_text(log, leak.block.caller));
        add(&mut groups, key, leak)?;
    }
    Ok(groups)
}

/// The rows of the leaked blocks in the order of their texts, in whichever order the blocks are.
pub(crate) fn grouped_rows(
    alloc: Global,
    leaked: &Leaked,
    placed: &[PlacedLeak],
) -> Result<Vec<CallerRow>, AllocError>
    requires complete { IsComplete leaked.now }
    requires by_place { let l = leaked.now in
        AreByPlace l.prefix.now l.log.now l.leaks.now placed.now }
    ensures { let l = leaked.now in
        IfOk result (λ rows. AreByText l.prefix.now l.log.now l.leaks.now rows.items) }
{
    let groups = leaked_groups(alloc, leaked, placed)?;
    rows_of(alloc, &groups)
}

/// The rows, in the order of their texts.
fn rows_of(alloc: Global, groups: &BTreeMap<Key, CallerRow>) -> Result<Vec<CallerRow>, AllocError>
    ensures ordered { IsOrdered order_of_keys groups.now }
    ensures rows { IfOk result (λ rows. rows.items ≡ values groups.now) }
{
    // Not collected: that could go on after its first request for room was refused.
    let given = groups.values();
    let mut rows = Vec::with_capacity(alloc, groups.len())?;
    for row in given {
        rows.push(*row)?;
    }
    Ok(rows)
}
