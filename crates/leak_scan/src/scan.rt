//! What a scan goes over, and how far it has come.
ghost use Rattle.std.specs.Prelude.{◌≡◌, ◌++◌, []};
ghost use Rattle.leak_index.specs.Hits.{hits_in};
ghost use Rattle.leak_scan.specs.Scans.{IsOver, targets_ahead};

use crate::pages::Pages;
use crate::position::{Position, next_hits};
use crate::root_words::next_held;
use leak_blocks::Live;
use leak_elf::Words;
use leak_index::{Hits, Lookup};

/// The words that are left.
#[derive(Clone, Copy)]
pub(crate) enum Scan<'a> {
    /// Words, on listed pages alone if there is a list.
    Plain(Option<&'a Pages>, Position<'a>),
    /// The words from an address on and before another, as root words without links to free chunks, by the live blocks.
    Roots(&'a Live, u64, u64),
}

/// The blocks that the first word that leads to any leads to, and what is left after that word.
pub(crate) fn next_on<'a, W: Words, L: Lookup>(
    words: &'a W,
    lookup: &L,
    scan: Scan<'a>,
) -> (Hits, Scan<'a>)
    requires { IsOver (L.index lookup.now) scan }
    ensures over { IsOver (L.index lookup.now) result.1 }
    ensures split { let w = W.word_at words.now in let i = L.index lookup.now in
        targets_ahead w i scan.entry ≡ hits_in result.0 ++ targets_ahead w i result.1 }
    ensures end { result.0 ≡ Hits.Zero
        → targets_ahead (W.word_at words.now) (L.index lookup.now) result.1 ≡ [] }
{
    match scan {
        Scan::Plain(pages, position) => {
            let (hits, position) = next_hits(words, lookup, pages, position);
            (hits, Scan::Plain(pages, position))
        }
        Scan::Roots(live, from, to) => {
            let (hits, from) = next_held(words, lookup, live, from, to);
            (hits, Scan::Roots(live, from, to))
        }
    }
}
