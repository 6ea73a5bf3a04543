//! The leaked blocks in sum, and by caller.
ghost use Rattle.std.specs.Prelude.{◌≡◌, ◌^◌, ◌<◌, length, not, count_by, IfOk};
ghost use Rattle.leak_report.specs.Sites.{HaveSites, bytes_at, sited};
ghost use Rattle.leak_report.specs.Totals.{AreLeaksIn, HaveCallersIn, bytes_in, bytes_of, heads_in, leaked_in, leaks_in, marked_in, rows_of};

use crate::by_text::{Leaked, ranked_rows};
use crate::caller_texts::CallerTexts;
use crate::leaked::{Leak, count_heads, leaked_bytes, leaks_of};
use crate::places::prefix_of;
use leak_blocks::{Block, Live};
use std::alloc::{AllocError, Global};

/// The leaked blocks with one text of the caller.
#[derive(Clone, Copy, Debug, PartialEq, Eq)]
pub struct CallerRow {
    /// The number of the blocks.
    pub blocks: u64,
    /// The sum of their sizes, in bytes.
    pub bytes: u64,
    /// The number of the heads among them.
    pub heads: u64,
    /// The caller of the one at the least address, as a range of the log's bytes with its end excluded.
    pub caller: (usize, usize),
}

/// The leaked blocks in sum, and by caller: those of the live blocks that are not marked.
#[derive(Debug, Drop)]
pub struct Totals {
    /// The number of leaked blocks.
    pub blocks: u64,
    /// The sum of their sizes, in bytes.
    pub bytes: u64,
    /// The number of heads among them.
    pub heads: u64,
    /// One row for each text of a caller, the most bytes first, ties by the ascending bytes of the text.
    pub rows: Vec<CallerRow>,
}

impl Totals {
    /// Sums up the live blocks that the set leaves out, of which the heads are those with that entry. The entries of
    /// blocks in the set say nothing. The log's bytes are those that the callers are ranges of.
    pub fn of(
        alloc: Global,
        live: &Live,
        set: &[bool],
        heads: &[bool],
        log: &[u8],
    ) -> Result<Totals, AllocError>
        requires one_each { length set.now ≡ length live.now.blocks }
        requires an_entry_each { length heads.now ≡ length live.now.blocks }
        requires in_log { HaveCallersIn log.now live.now.blocks }
        ensures count { IfOk result
            (λ totals. totals.blocks ≡ length (leaked_in set.now live.now.blocks)) }
        ensures bytes { IfOk result
            (λ totals. totals.bytes ≡ bytes_of (leaked_in set.now live.now.blocks)) }
        ensures heads { IfOk result
            (λ totals. totals.heads ≡ heads_in (leaks_in set.now heads.now live.now.blocks)) }
        ensures rows { IfOk result
            (λ totals. totals.rows.items
            ≡ rows_of log.now (leaks_in set.now heads.now live.now.blocks)) }
    {
        Totals::of_sites(alloc, live, set, heads, CallerTexts::OfLog(log))
    }

    /// The same, wherever the texts of the callers stand.
    pub(crate) fn of_sites(
        alloc: Global,
        live: &Live,
        set: &[bool],
        heads: &[bool],
        callers: CallerTexts<'_>,
    ) -> Result<Totals, AllocError>
        requires one_each { length set.now ≡ length live.now.blocks }
        requires an_entry_each { length heads.now ≡ length live.now.blocks }
        requires sites { HaveSites callers (length live.now.blocks) }
        requires in_bytes { HaveCallersIn (bytes_at callers) (sited callers live.now.blocks) }
        ensures count { let sites = sited callers.entry live.now.blocks in
            IfOk result (λ totals. totals.blocks ≡ length (leaked_in set.now sites)) }
        ensures bytes { let sites = sited callers.entry live.now.blocks in
            IfOk result (λ totals. totals.bytes ≡ bytes_of (leaked_in set.now sites)) }
        ensures heads { let sites = sited callers.entry live.now.blocks in
            IfOk result (λ totals. totals.heads ≡ heads_in (leaks_in set.now heads.now sites)) }
        ensures rows { let sites = sited callers.entry live.now.blocks in
            IfOk result (λ totals. totals.rows.items
            ≡ rows_of (bytes_at callers.entry) (leaks_in set.now heads.now sites)) }
    {
        let blocks = live.blocks();
        let leaks = leaks_of(alloc, blocks, set, heads, callers)?;
        Totals::of_leaks(alloc, leaks.as_slice(), callers.bytes())
    }

    /// Sums up leaked blocks. The log's bytes are those that their callers are ranges of.
    fn of_leaks(alloc: Global, leaks: &[Leak], log: &[u8]) -> Result<Totals, AllocError>
        requires fits { bytes_in leaks.now < 2 ^ 64 }
        requires in_log { AreLeaksIn log.now leaks.now }
        ensures count { IfOk result (λ totals. totals.blocks ≡ length leaks.now) }
        ensures bytes { IfOk result (λ totals. totals.bytes ≡ bytes_in leaks.now) }
        ensures heads { IfOk result (λ totals. totals.heads ≡ heads_in leaks.now) }
        ensures rows { IfOk result (λ totals. totals.rows.items ≡ rows_of log.now leaks.now) }
    {
        let prefix = prefix_of(leaks, log);
        let leaked = Leaked { prefix, leaks, log };
        let rows = ranked_rows(alloc, &leaked)?;
        Ok(Totals {
            blocks: leaks.len() as u64,
            bytes: leaked_bytes(leaks),
            heads: count_heads(leaks),
            rows,
        })
    }
}

/// The number of the marked blocks, and the sum of their sizes.
pub fn marked_sizes(blocks: &[Block], set: &[bool]) -> (u64, u64)
    requires one_each { length set.now ≡ length blocks.now }
    requires fits { bytes_of blocks.now < 2 ^ 64 }
    ensures number { result.0 ≡ length (marked_in set.now blocks.now) }
    ensures bytes { result.1 ≡ bytes_of (marked_in set.now blocks.now) }
{
    let mut number = 0;
    let mut bytes = 0;
    for (i, block) in blocks.iter().enumerate() {
        if set[i] {
            number += 1;
            bytes += block.size;
        }
    }
    (number, bytes)
}

/// How many of the marks are not set.
pub fn count_clear(marks: &[bool]) -> u64
    ensures { result ≡ count_by not marks.now }
{
    marks.iter().filter(|mark| !**mark).count() as u64
}
