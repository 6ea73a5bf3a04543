//! Laws of streams that tell their bytes. Each is a function that does nothing: its contract is the law.

ghost use Rattle.leak_streams.specs.Laws.{ReadsTell, WritesTell};

use crate::readers::ReadCalls;
use crate::writers::WriteCalls;
use std::io::{Read, Write};

/// What reads come to if the reader tells the bytes that it has left.
pub fn reads_tell<R: Read>()
    ensures { ReadsTell ⟦<R as ReadCalls>⟧.calls R.remaining }
{}

/// What writes come to if the writer tells the bytes that it holds.
pub fn writes_tell<W: Write>()
    ensures { WritesTell ⟦<W as WriteCalls>⟧.calls W.contents }
{}
