//! Comparing two cores page by page. No other file of the crate starts threads.
ghost use Rattle.std.specs.Prelude.{◌≡◌, ◌+◌, ◌-◌, ◌*◌, ◌<◌, ◌≤◌, ◌^◌, ◌≢◌, ◌++◌, ℕ, length, filter, flat_map, IfOk, IsTrue, IsFalse};
ghost use Rattle.std.specs.Int.{w64};
ghost use Rattle.std.specs.List.{range_with_len};
ghost use Rattle.leak_elf.specs.Fields.{number_at};
ghost use Rattle.leak_elf.specs.Words.{word_of};
ghost use Rattle.leak_later.specs.Differing.{is_changed as changed, differs, AreDiffering};
ghost use Rattle.leak_later.specs.Pieces.{IsCover};

use leak_elf::{Image, Rest, Words};
use leak_scan::Pages;
use rayon::prelude::*;
use std::alloc::{AllocError, Global};
use std::thread::Threads;

/// How many pages there are in the address space.
const PAGE_COUNT: u64 = 1 << 52;

/// How many pages a thread compares at a time at most: 1 MiB. Own rule, so that threads get as much work each.
const PIECE: u64 = 256;

/// Whether there is a word in the later core, and not the same one in the earlier core.
fn is_changed(before: Option<u64>, now: Option<u64>) -> bool
    ensures { result ≡ changed before now }
{
    now.is_some() && now != before
}

/// Compares the words of a page one by one.
fn words_differ<B: Rest>(first: &Image<'_, B>, second: &Image<'_, B>, page: u64) -> bool
    requires { page < 2 ^ 52 }
    ensures { result ≡ differs (word_of first.now) (word_of second.now) page }
{
    for k in 0..512 {
        let addr = 4096 * page + 8 * k;
        if is_changed(first.word(addr), second.word(addr)) {
            return true;
        }
    }
    false
}

/// Compares the first page of two runs.
fn runs_differ(before: &[u8], now: &[u8]) -> bool
    requires before { 4096 ≤ length before.now }
    requires now { 4096 ≤ length now.now }
    ensures differ { IsTrue result →
        (k : ℕ) × (k < 512) × (number_at w64 before.now (8 * k) ≢ number_at w64 now.now (8 * k)) }
    ensures same { IsFalse result →
        (k : ℕ) → k < 512 → number_at w64 before.now (8 * k) ≡ number_at w64 now.now (8 * k) }
{
    before[..4096] != now[..4096]
}

/// Adds the pages that differ, of those from the page on that both cores have completely, each in one run, or of this page
/// alone. Gives the first page that was not looked at.
///
/// A page that no run holds completely, as at the edges of segments, is compared word by word.
fn push_differing<B: Rest>(
    pages: &mut Vec<u64>,
    first: &Image<'_, B>,
    second: &Image<'_, B>,
    page: u64,
    to: u64,
) -> Result<u64, AllocError>
    requires some { page < to }
    requires end { to ≤ 2 ^ 52 }
    ensures { IfOk result (λ next. (page < next) × (next ≤ to)
        × (pages.new.items ≡ pages.old.items
        ++ filter (differs (word_of first.now) (word_of second.now))
        (range_with_len page (next - page)))) }
{
    let before = first.run(4096 * page);
    let now = second.run(4096 * page);
    let whole = before.len().min(now.len()) / 4096;
    if whole == 0 {
        if words_differ(first, second, page) {
            pages.push(page)?;
        }
        return Ok(page + 1);
    }
    let count = whole.min((to - page) as usize);
    for k in 0..count {
        if runs_differ(&before[4096 * k..], &now[4096 * k..]) {
            pages.push(page + k as u64)?;
        }
    }
    Ok(page + count as u64)
}

/// The pages that differ, of those from the first up to the end, which is excluded.
fn differing_in<B: Rest>(
    alloc: Global,
    first: &Image<'_, B>,
    second: &Image<'_, B>,
    from: u64,
    to: u64,
) -> Result<Vec<u64>, AllocError>
    requires { to ≤ 2 ^ 52 }
    ensures { IfOk result (λ v.
        v.items ≡ filter (differs (word_of first.now) (word_of second.now))
        (range_with_len from (to - from))) }
{
    let mut pages = Vec::new(alloc);
    let mut page = from;
    while page < to {
        page = push_differing(&mut pages, first, second, page, to)?;
    }
    Ok(pages)
}

/// Pieces of the pages, by ascending number, that hold all words of the core: each is its first page and its end,
/// which is excluded.
fn pieces_of<B: Rest>(alloc: Global, core: &Image<'_, B>) -> Result<Vec<(u64, u64)>, AllocError>
    ensures { IfOk result (λ v. IsCover (word_of core.now) 0 v.items) }
{
    let mut pieces = Vec::new(alloc);
    let mut end = 0u64;
    while let Some(addr) = core.next(end.saturating_mul(4096)) {
        let page = addr / 4096;
        let bytes = addr % 4096 + core.run(addr).len() as u64;
        end = (page + bytes.div_ceil(4096).clamp(1, PIECE)).min(PAGE_COUNT);
        pieces.push((page, end))?;
    }
    Ok(pieces)
}

/// The lists one after the other.
fn joined(alloc: Global, lists: &[Vec<u64>]) -> Result<Vec<u64>, AllocError>
    ensures { IfOk result (λ v. v.items ≡ flat_map (λ l. l.items) lists.now) }
{
    let mut numbers = Vec::new(alloc);
    for list in lists {
        numbers.extend_from_slice(list)?;
    }
    Ok(numbers)
}

/// Finds the pages of the later core on which some word is not in the earlier core with the same value.
///
/// A page that the earlier core lacks differs if the later core has a word on it. A page of which the later core
/// has no word doesn't differ.
pub fn differing<R: Threads + Sync, B: Rest + Sync>(
    rt: &R,
    alloc: Global,
    first: &Image<'_, B>,
    second: &Image<'_, B>,
) -> Result<Pages, AllocError>
    ensures { IfOk result (AreDiffering (word_of first.now) (word_of second.now)) }
{
    let pieces = pieces_of(alloc, second)?;
    let found = pieces
        .par_iter()
        .with_min_len(1)
        .map(
            |piece: &(u64, u64)| -> Result<Vec<u64>, AllocError>
                requires { piece.now.1 ≤ 2 ^ 52 }
                ensures { IfOk result (λ v.
                    v.items ≡ filter (differs (word_of first.entry.now) (word_of second.entry.now))
                    (range_with_len piece.now.0 (piece.now.1 - piece.now.0))) }
            { differing_in(alloc, first, second, piece.0, piece.1) },
        )
        .collect::<Result<Vec<Vec<u64>>, AllocError>>(rt, alloc)??;
    let numbers = joined(alloc, &found)?;
    match Pages::new(numbers) {
        Some(pages) => Ok(pages),
        None => unreachable!(),
    }
}
