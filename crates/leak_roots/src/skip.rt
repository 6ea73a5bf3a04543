//! What a search leaves out of the root words.

ghost use Rattle.std.specs.Prelude.{◌≡◌, IfOk};
ghost use Rattle.leak_blocks.specs.Small.{CoverSame};
ghost use Rattle.leak_roots.specs.Skipped.{spans_of, usual_skip};

use leak_blocks::{SmallSpans, small_spans};
use leak_mtrace::Log;
use std::alloc::{AllocError, Global};

/// What a search leaves out of the root words.
#[derive(Clone, Copy, Debug, PartialEq, Eq)]
pub struct Skip {
    /// The words of freed memory: those whose 8 bytes each lie in the span of a small allocation of the log, and in no
    /// live block.
    pub freed: bool,
    /// The words of slack: those whose 8 bytes each lie beyond what was asked for, in what malloc gave a live block.
    pub slack: bool,
    /// The words of dead stack: those whose 8 bytes each lie in a thread's stack below the words that its functions use.
    pub dead: bool,
    /// The links that malloc keeps to free chunks, and its pointers to the top of a heap.
    pub links: bool,
    /// The words of memory that can't be written.
    pub unwritable: bool,
}

/// What is left out of the root words as they are found.
#[derive(Clone, Copy)]
pub struct Exclusions<'a> {
    /// The spans of small allocations whose freed places are left out: those of the log, or none.
    pub small: &'a SmallSpans,
    /// Whether the words of memory that can't be written are left out.
    pub unwritable: bool,
}

impl Skip {
    /// What a search leaves out unless it is asked to leave out more: the words of memory that can't be written.
    pub fn usual() -> Skip
        ensures { result ≡ usual_skip }
    {
        Skip {
            freed: false,
            slack: false,
            dead: false,
            links: false,
            unwritable: true,
        }
    }

    /// The spans of a log whose freed places are left out. It is for libraries and tests: the program has them from
    /// [`leak_blocks::replay_with_spans`].
    pub fn spans(self, alloc: Global, log: &Log) -> Result<SmallSpans, AllocError>
        ensures { IfOk result (λ spans. CoverSame spans (spans_of self log.now.lines)) }
    {
        if self.freed {
            small_spans(alloc, log)
        } else {
            Ok(SmallSpans::none(alloc))
        }
    }
}
