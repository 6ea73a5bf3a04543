//! A lookup by rows of addresses, or by pages.
ghost use Rattle.std.specs.Prelude.{◌≡◌, IfOk};
ghost use Rattle.leak_index.specs.Finder.{Finds};
ghost use Rattle.leak_index.specs.Hits.{Index};
ghost use Rattle.leak_index.specs.Readings.{distances_of};

use crate::candidates::Candidates;
use crate::finder::Finder;
use crate::hits::{Hits, Lookup};
use crate::reading::Reading;
use leak_blocks::Live;
use std::alloc::{AllocError, Global};
use std::marker::Model;

/// A lookup by the word's address: in rows of 1024 addresses if each block starts at a multiple of 16, and otherwise in
/// the pages in which blocks start.
///
/// It borrows the blocks. It takes memory for the rows or pages near their starts, however long the blocks are.
#[derive(Drop)]
pub struct Paged<'a> {
    candidates: Candidates<'a>,
    finder: Finder,
}

impl<'a> Model for Paged<'a> {
    ghost Value = { Index };

    ghost view = { λ paged. paged.candidates };

    ghost invariant = { λ paged. Finds paged.candidates.blocks paged.finder };
}

impl<'a> Paged<'a> {
    /// The lookup among the blocks by the reading.
    pub fn new(alloc: Global, live: &'a Live, reading: Reading) -> Result<Paged<'a>, AllocError>
        ensures { IfOk result (λ paged.
            paged ≡ record { blocks = live.now.blocks; reading = distances_of reading }) }
    {
        let candidates = Candidates::new(live, reading);
        let finder = Finder::new(alloc, candidates.blocks())?;
        Ok(Paged { candidates, finder })
    }
}

impl<'a> Lookup for Paged<'a> {
    ghost index = { λ paged. paged };

    #[inline(always)]
    fn hits(&self, word: u64) -> Hits {
        if self.candidates.is_out(word) {
            return Hits::Zero;
        }
        let place = self.finder.place(self.candidates.blocks(), word);
        self.candidates.hits_at(word, place)
    }

    fn count_leading(&self, words: &[u64]) -> usize {
        match &self.finder {
            Finder::Rows(ranks) => ranks.count_starts(self.candidates.blocks(), words),
            Finder::Pages(_) => 0,
        }
    }
}
