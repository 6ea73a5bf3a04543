//! How far a scan has come.
ghost use Rattle.std.specs.Prelude.{◌≡◌, ◌++◌, ◌<◌};
ghost use Rattle.std.specs.Option.{option_copied};
ghost use Rattle.leak_scan.specs.Positions.{listed_word, words_found, words_from, IsFirstWindow, AreNextHits};
ghost use Rattle.leak_scan.specs.Targets.{targets_of};

use crate::first::{first_of_list, first_of_run};
use crate::pages::Pages;
use crate::reading::{ReadWords, read_on};
use leak_elf::Words;
use leak_index::{Hits, Lookup};

/// The words that are left: those of a list, those of a run of bytes, and those at `count` addresses from `from` on.
#[derive(Clone, Copy)]
pub(crate) struct Position<'a> {
    pub(crate) list: &'a [u64],
    pub(crate) run: &'a [u8],
    pub(crate) from: u64,
    pub(crate) count: u64,
}

/// Words that were read, and the addresses that are left.
#[derive(Clone, Copy)]
pub(crate) struct Step<'a> {
    pub(crate) found: ReadWords<'a>,
    pub(crate) from: u64,
    pub(crate) count: u64,
}

/// Reads the first words at the addresses, on listed pages alone if there is a list. Words that lead nowhere may be left
/// out.
fn advance<'a, W: Words, L: Lookup>(
    words: &'a W,
    lookup: &L,
    pages: Option<&'a Pages>,
    from: u64,
    count: u64,
) -> Step<'a>
    requires { 0 < count }
    ensures split { let f = listed_word (W.word_at words.now) (option_copied pages.entry) in
        let index = L.index lookup.now in
        targets_of index (words_from f from count) ≡ targets_of index (words_found result.found)
        ++ targets_of index (words_from f result.from result.count) }
    ensures fewer { result.count < count }
{
    let end = Step {
        found: ReadWords::Nothing,
        from,
        count: 0,
    };
    let Some((start, window)) = first_window(pages, from, count) else {
        return end;
    };
    match read_on(words, lookup, start, window) {
        None => end,
        Some((found, later)) => Step {
            found,
            from: later,
            count: count.saturating_sub(later - from),
        },
    }
}

/// The first addresses of `count` from `from` on that are on one listed page, or all if there is no list: their
/// start and their number.
fn first_window(pages: Option<&Pages>, from: u64, count: u64) -> Option<(u64, u64)>
    requires { 0 < count }
    ensures { IsFirstWindow (option_copied pages.entry) from count result }
{
    let Some(pages) = pages else {
        return Some((from, count));
    };
    let (start, window) = pages.window(from)?;
    let skipped = start - from;
    if skipped >= count {
        return None;
    }
    Some((start, window.min(count - skipped)))
}

/// Scans up to the next word that leads to a block: the blocks that it leads to, and the words after it.
pub(crate) fn next_hits<'a, W: Words, L: Lookup>(
    words: &'a W,
    lookup: &L,
    pages: Option<&'a Pages>,
    position: Position<'a>,
) -> (Hits, Position<'a>)
    ensures { let f = listed_word (W.word_at words.now) (option_copied pages.entry) in
        AreNextHits f (L.index lookup.now) position.entry result.0 result.1 }
{
    let mut position = position;
    loop {
        let (hits, list) = first_of_list(lookup, position.list);
        position.list = list;
        match hits {
            Hits::Zero => {}
            hits => return (hits, position),
        }
        let (hits, run) = first_of_run(lookup, position.run);
        position.run = run;
        match hits {
            Hits::Zero => {}
            hits => return (hits, position),
        }
        if position.count == 0 {
            return (Hits::Zero, position);
        }
        let step = advance(words, lookup, pages, position.from, position.count);
        position.from = step.from;
        position.count = step.count;
        match step.found {
            ReadWords::Nothing => {}
            ReadWords::Bytes(run) => position.run = run,
            ReadWords::Kept(list) => position.list = list,
            ReadWords::Word(word) => match lookup.hits(word) {
                Hits::Zero => {}
                hits => return (hits, position),
            },
        }
    }
}
