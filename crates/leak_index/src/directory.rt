//! The pages in which blocks start.
ghost use Rattle.std.specs.Prelude.{◌↔◌, ◌+◌, IfOk, IsTrue};
ghost use Rattle.std.specs.List.Sorted.{IsStrictlyIncreasing};
ghost use Rattle.leak_blocks.specs.Span.{AreDisjoint};
ghost use Rattle.leak_index.specs.Bounds.{IsCountUpTo, IsNarrowedTo};
ghost use Rattle.leak_index.specs.Directory.{AreUpTo, IsDirectory};

use crate::sorted::count_up_to;
use leak_blocks::Block;
use std::alloc::{AllocError, Global};

/// How many addresses a page has.
const PAGE: u64 = 4096;

/// The numbers of the pages in which blocks start, ascending, and for each the number of the first block that starts
/// there.
#[derive(Drop)]
pub(crate) struct Directory {
    pages: Vec<u64>,
    firsts: Vec<usize>,
    /// Helps to find entries. No answer depends on it.
    runs: Vec<PageRun>,
}

/// An entry, counted from 0, whose page doesn't follow that of the entry before.
///
/// If blocks are small there are few of these: the entry of a page is then found by its distance from one of them.
#[derive(Clone, Copy)]
struct PageRun {
    page: u64,
    entry: usize,
}

impl Directory {
    /// The directory of blocks by ascending start.
    pub(crate) fn new(alloc: Global, blocks: &[Block]) -> Result<Directory, AllocError>
        requires { AreDisjoint blocks.now }
        ensures { IfOk result (λ directory.
            IsDirectory blocks.now directory.pages.items directory.firsts.items) }
    {
        let mut pages = Vec::new(alloc);
        let mut firsts = Vec::new(alloc);
        // the least page above all entries
        let mut next = 0;
        for (number, block) in blocks.iter().enumerate() {
            let page = block.start / PAGE;
            if page >= next {
                pages.push(page)?;
                firsts.push(number)?;
                next = page + 1;
            }
        }
        let runs = runs_of(alloc, pages.as_slice())?;
        Ok(Directory {
            pages,
            firsts,
            runs,
        })
    }

    /// How many of the blocks begin at the address or before it.
    pub(crate) fn count_up_to(&self, blocks: &[Block], address: u64) -> usize
        requires disjoint { AreDisjoint blocks.now }
        requires directory { IsDirectory blocks.now self.now.pages.items self.now.firsts.items }
        ensures { IsCountUpTo blocks.now address result }
    {
        let (low, high) = self.narrow(blocks, address);
        low + count_up_to(&blocks[low..high], address)
    }

    /// The number of the first block that starts in the last listed page not above the address, and of the first that
    /// starts in a later page.
    fn narrow(&self, blocks: &[Block], address: u64) -> (usize, usize)
        requires disjoint { AreDisjoint blocks.now }
        requires directory { IsDirectory blocks.now self.now.pages.items self.now.firsts.items }
        ensures { IsNarrowedTo blocks.now address result.0 result.1 }
    {
        let entries = self.count_entries(address / PAGE);
        if entries == 0 {
            return (0, 0);
        }
        let low = self.firsts[entries - 1];
        if entries == self.firsts.len() {
            return (low, blocks.len());
        }
        (low, self.firsts[entries])
    }

    /// How many of the listed pages are not above the page.
    fn count_entries(&self, page: u64) -> usize
        requires { IsStrictlyIncreasing self.now.pages.items }
        ensures { AreUpTo self.now.pages.items page result }
    {
        let guess = self.guess(page);
        if is_last(self.pages.as_slice(), guess, page) {
            return guess + 1;
        }
        count_all(self.pages.as_slice(), page)
    }

    /// A guess at the last entry whose page is at or below the given one: right if the pages of its run follow one
    /// another. Nothing is promised of it, so the caller tests it.
    fn guess(&self, page: u64) -> usize {
        let runs = self.runs.partition_point(|run| run.page <= page);
        if runs == 0 {
            return 0;
        }
        let run = self.runs[runs - 1];
        let end = if runs == self.runs.len() {
            self.pages.len()
        } else {
            self.runs[runs].entry
        };
        let distance = page.saturating_sub(run.page) as usize;
        run.entry
            .saturating_add(distance)
            .min(end.saturating_sub(1))
    }
}

/// The entries at which runs of pages that follow one another begin.
fn runs_of(alloc: Global, pages: &[u64]) -> Result<Vec<PageRun>, AllocError> {
    let mut runs = Vec::new(alloc);
    let mut next = 0;
    for (entry, page) in pages.iter().enumerate() {
        let page = *page;
        if entry == 0 || page != next {
            runs.push(PageRun { page, entry })?;
        }
        next = page.saturating_add(1);
    }
    Ok(runs)
}

/// Whether the entry is the last whose page isn't above the page.
fn is_last(pages: &[u64], entry: usize, page: u64) -> bool
    requires { IsStrictlyIncreasing pages.now }
    ensures { IsTrue result ↔ AreUpTo pages.now page (entry + 1) }
{
    if entry >= pages.len() || pages[entry] > page {
        return false;
    }
    entry == pages.len() - 1 || page < pages[entry + 1]
}

/// How many of the pages are not above the page, after a guess failed.
#[cold]
#[inline(never)]
fn count_all(pages: &[u64], page: u64) -> usize
    requires { IsStrictlyIncreasing pages.now }
    ensures { AreUpTo pages.now page result }
{
    count_pages(pages, page)
}

/// How many of the pages, which ascend, are not above the page.
pub(crate) fn count_pages(pages: &[u64], page: u64) -> usize
    requires { IsStrictlyIncreasing pages.now }
    ensures { AreUpTo pages.now page result }
{
    pages.partition_point(|entry| *entry <= page)
}
