//! Writing a text out.

ghost use Rattle.std.specs.Prelude.{◌<◌, ◌≤◌, ◌+◌, length, OnOk, IfOk, IfErr, IfSome, IfNone};
ghost use Rattle.std.specs.Io.{WritesAtMost};
ghost use Rattle.std.specs.Io.KnownBytes.{WriteAppends};
ghost use Rattle.leak_streams.specs.Writes.{Calls, GoesOn, Stops, IsWrittenWhole, IsCutOff};

use crate::fault::WriteFault;
use std::io;
use std::io::{ErrorKind, Write};

/// The interrupted writes at which [`write`] gives up, over the whole call. Own rule, so that it ends with every writer.
const MOST_INTERRUPTIONS: u32 = 1_000_000;

/// How far a text is written.
#[derive(Clone, Copy)]
struct WrittenSoFar {
    /// How many of its bytes were taken.
    written: usize,
    /// How many writes were interrupted.
    interruptions: u32,
}

/// A writer, by its single writes. Everything that is [`Write`] is one.
///
/// Its one ghost member says what a write does. A function that is generic over writers learns nothing else of them, so its contract
/// can claim nothing of a writer but by the writes that it made.
pub trait WriteCalls {
    /// What a write does: the writer before it, the bytes that it was given, its answer, and the writer after it.
    ghost calls: { Calls Self };

    /// Takes some of the bytes from their front, and tells how many.
    fn write_some(&mut self, bytes: &[u8]) -> io::Result<usize>
        ensures call { calls self.old bytes.now result self.new }
        ensures bound { WritesAtMost result bytes.now };
}

impl<W: Write> WriteCalls for W {
    ghost calls = { λ before bytes answer after.
        WriteAppends (W.contents before) (W.contents after) answer bytes
        × WritesAtMost answer bytes };

    fn write_some(&mut self, bytes: &[u8]) -> io::Result<usize> {
        self.write(bytes)
    }
}

/// Hands the text to the writer. It goes on after a write that took less than it was given, and after one that was
/// interrupted.
pub fn write<W: WriteCalls>(text: &[u8], writer: &mut W) -> Result<(), WriteFault>
    ensures ok { OnOk result (IsWrittenWhole W.calls text.now writer.old writer.new) }
    ensures fault { IfErr result (IsCutOff W.calls text.now writer.old writer.new) }
    ensures short { IfErr result (λ f. f.written < length text.now) }
{
    let mut now = WrittenSoFar {
        written: 0,
        interruptions: 0,
    };
    while now.written < text.len() {
        let answer = writer.write_some(&text[now.written..]);
        match after(now, answer) {
            Some(next) => now = next,
            None => {
                return Err(WriteFault {
                    written: now.written as u64,
                });
            }
        }
    }
    Ok(())
}

/// How far the text is written after the answer of a write, or `None` if it stops the writing.
fn after(now: WrittenSoFar, answer: io::Result<usize>) -> Option<WrittenSoFar>
    requires few { now.interruptions < MOST_INTERRUPTIONS }
    requires fits { IfOk answer (λ count. now.written + count ≤ usize.MAX) }
    ensures goes_on { IfSome result (GoesOn now answer) }
    ensures stops { IfNone result (Stops now answer) }
{
    match answer {
        Ok(0) => None,
        Ok(count) => Some(WrittenSoFar {
            written: now.written + count,
            interruptions: now.interruptions,
        }),
        Err(error) => {
            let interruptions = now.interruptions + 1;
            if error.kind() == ErrorKind::Interrupted && interruptions < MOST_INTERRUPTIONS {
                return Some(WrittenSoFar {
                    written: now.written,
                    interruptions,
                });
            }
            None
        }
    }
}
