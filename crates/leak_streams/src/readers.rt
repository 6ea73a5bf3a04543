//! Reading an input to its end.

ghost use Rattle.std.specs.Prelude.{◌≡◌, [], IfOk, IfErr};
ghost use Rattle.std.specs.Io.{ReadsAtMost};
ghost use Rattle.std.specs.Io.KnownBytes.{ReadConsumes};
ghost use Rattle.leak_streams.specs.Reads.{Calls, IsReadWhole, IsGivenUp};

use crate::fault::ReadFault;
use crate::pieces::Reading;
use std::alloc::Global;
use std::io;
use std::io::Read;

/// How many bytes are asked for at a time: 256 KiB. Own rule: they and their copy fit a processor's second cache.
const PIECE: usize = 262_144;

/// A reader, by its single reads. Everything that is [`Read`] is one.
///
/// Its one ghost member says what a read does. A function that is generic over readers learns nothing else of them, so its contract
/// can claim nothing of a reader but by the reads that it made.
pub trait ReadCalls {
    /// What a read does: the reader before it, the piece as it left it, its answer, and the reader after it.
    ghost calls: { Calls Self };

    /// Reads some bytes into the front of the piece, and tells how many.
    fn read_some(&mut self, piece: &mut [u8]) -> io::Result<usize>
        ensures call { calls self.old piece.new result self.new }
        ensures bound { ReadsAtMost result piece.new };
}

impl<R: Read> ReadCalls for R {
    ghost calls = { λ before piece answer after.
        ReadConsumes (R.remaining before) (R.remaining after) answer piece
        × ReadsAtMost answer piece };

    fn read_some(&mut self, piece: &mut [u8]) -> io::Result<usize> {
        self.read(piece)
    }
}

/// Reads all bytes that the reader has, at most `limit` bytes.
///
/// What was read before a refusal is dropped. It is for libraries and tests: the program goes by [`read_sized`].
pub fn read_all<R: ReadCalls>(
    alloc: Global,
    reader: &mut R,
    limit: u64,
) -> Result<Vec<u8>, ReadFault>
    ensures ok { IfOk result (λ v. IsReadWhole R.calls limit reader.old reader.new v.items) }
    ensures refused { IfErr result (IsGivenUp R.calls limit reader.old reader.new) }
{
    read_sized(alloc, reader, limit, 0)
}

/// Reads as [`read_all`] does, from a reader that is said to have this many bytes. The size changes only time and memory.
pub fn read_sized<R: ReadCalls>(
    alloc: Global,
    reader: &mut R,
    limit: u64,
    size: u64,
) -> Result<Vec<u8>, ReadFault>
    ensures ok { IfOk result (λ v. IsReadWhole R.calls limit reader.old reader.new v.items) }
    ensures refused { IfErr result (IsGivenUp R.calls limit reader.old reader.new) }
{
    let mut reading = Reading::begin::<R>(alloc, PIECE)?;
    let mut bytes = list_for(alloc, size.min(limit));
    'pieces: while reading.next_piece(reader, limit)? {
        bytes.extend_from_slice(reading.piece())?;
    }
    Ok(bytes)
}

/// An empty list with room for this many bytes, or with none if that can't be had.
///
/// A size that is said is no promise, so it refuses nothing.
fn list_for(alloc: Global, size: u64) -> Vec<u8>
    ensures { result.items ≡ [] }
{
    match Vec::with_capacity(alloc, size as usize) {
        Ok(bytes) => bytes,
        Err(_) => Vec::new(alloc),
    }
}
