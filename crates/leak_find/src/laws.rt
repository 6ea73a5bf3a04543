//! The law of runs. It is a function that does nothing: its contract is the law.

ghost use Rattle.leak_find.specs.Streams.{by_reads, by_writes};
ghost use Rattle.leak_find.specs.Laws.{RunsTell};

use leak_streams::{ReadCalls, WriteCalls};
use std::io::{Read, Write};

/// What runs come to if the readers tell the bytes that they have left, and the writers those that they hold.
pub fn runs_tell<R: Read, W: Write, V: Write>()
    ensures { RunsTell (by_reads ⟦<R as ReadCalls>⟧.calls) R.remaining
        (by_writes ⟦<W as WriteCalls>⟧.calls) W.contents
        (by_writes ⟦<V as WriteCalls>⟧.calls) V.contents }
{}
