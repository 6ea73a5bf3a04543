//! By what rules an input is searched.

ghost use Rattle.std.specs.Prelude.{◌≡◌, false, None};
ghost use Rattle.leak_index.specs.Readings.{distances_of};
ghost use Rattle.leak_roots.specs.Skipped.{usual_skip};

use leak_index::Reading;
use leak_roots::Skip;

/// By what rules an input is searched: which of its words count, what they lead to, and whose heap its blocks are in.
#[derive(Clone, Copy, Debug)]
pub struct Rules {
    /// The distances from a block's start, in bytes, at which a word leads to the block.
    pub reading: Reading,
    /// What is left out of the root words.
    pub skip: Skip,
    /// Whether the heap is another than glibc's. It says nothing of the blocks then, so none counts as a misfit.
    pub other_heap: bool,
}

impl Rules {
    /// The rules of a search that is asked for no others: all distances up to a block's size count, what is left out is
    /// what [`Skip::usual`] says, and the heap is glibc's.
    pub fn usual() -> Rules
        ensures reading { distances_of result.reading ≡ record { listed = None; skips_ends = false } }
        ensures skip { result.skip ≡ usual_skip }
        ensures heap { result.other_heap ≡ false }
    {
        Rules {
            reading: Reading::interior(),
            skip: Skip::usual(),
            other_heap: false,
        }
    }
}
