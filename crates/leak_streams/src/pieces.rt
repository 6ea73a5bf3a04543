//! Reading an input piece by piece.

ghost use Rattle.std.specs.Prelude.{◌≡◌, ◌≢◌, ◌↔◌, ℕ, ◌+◌, ◌<◌, ◌≤◌, List, [], length, take, false, IsTrue, IfOk, IfErr};
ghost use Rattle.leak_streams.specs.Reads.{Follows, HasCome};
ghost use Rattle.leak_streams.specs.Pieces.{nothing_read, HasComeTo, TakesPiece, FindsEnd, GivesUp, ComesTo};

use crate::fault::ReadFault;
use crate::readers::ReadCalls;
use std::alloc::{AllocError, Global};
use std::io;
use std::io::ErrorKind;
use std::marker::Model;

/// How many interrupted reads end a reading.
const MOST_INTERRUPTIONS: u32 = 1_000_000;

/// A reading in progress: its caller asks for one piece after another, and may do other work between them.
///
/// Contracts see how many bytes were taken, how many reads were interrupted, and the piece that was read last. A reading is of
/// one reader and one limit. Once the input has ended, or after a fault, it is of no more use.
#[derive(Drop)]
pub struct Reading {
    buffer: Vec<u8>,
    /// How many bytes of the buffer's front are the piece.
    count: usize,
    taken: u64,
    interruptions: u32,
}

impl Model for Reading {
    ghost use Rattle.std.specs.Prelude.{◌≡◌, ◌<◌, ◌≤◌, length, take};
    ghost use Rattle.leak_streams.specs.Pieces.{TakenSoFar};

    ghost Value = { TakenSoFar };

    ghost view = { λ r.
        record { taken = r.taken; interruptions = r.interruptions; piece = take r.count r.buffer.items } };

    ghost invariant = { λ r.
        (0 < length r.buffer.items) × (r.count ≤ length r.buffer.items)
        × (r.interruptions < 1000000) };
}

impl Reading {
    /// Begins a reading, of any reader. A piece has at most `size` bytes, or one if that is 0.
    pub fn begin<R: ReadCalls>(alloc: Global, size: usize) -> Result<Reading, AllocError>
        ensures nothing { IfOk result (λ r. r ≡ nothing_read) }
        ensures come { IfOk result (λ r.
            (limit : ℕ) (reader : R) → HasComeTo R.calls limit reader reader r []) }
    {
        Ok(Reading {
            buffer: vec![in alloc; 0u8; size.max(1)]?,
            count: 0,
            taken: 0,
            interruptions: 0,
        })
    }

    /// Reads the next piece, and tells whether there is one: if not, the input has ended. At most `limit` bytes are taken in all.
    pub fn next_piece<R: ReadCalls>(
        &mut self,
        reader: &mut R,
        limit: u64,
    ) -> Result<bool, ReadFault>
        ensures more { IfOk result (λ more. IsTrue more
            → TakesPiece R.calls limit reader.old self.old reader.new self.new) }
        ensures end { IfOk result (λ more. more ≡ false
            → FindsEnd R.calls limit reader.old self.old reader.new) }
        ensures refused { IfErr result (GivesUp R.calls limit reader.old self.old reader.new) }
        ensures memory { IfErr result (λ f. f ≢ ReadFault.NoMemory) }
        ensures piece { IfOk result (λ more. IsTrue more ↔ 0 < length self.new.piece) }
        ensures no_piece { IfErr result (λ _. self.new.piece ≡ []) }
        ensures taken { self.new.taken ≡ self.old.taken + length self.new.piece }
    {
        let left = limit.saturating_sub(self.taken);
        let buffer = self.buffer.as_mut_slice();
        self.count = 0;
        self.count = read_retrying(reader, buffer, left, &mut self.interruptions)?;
        self.taken += self.count as u64;
        Ok(self.count > 0)
    }

    /// Reads the next piece into the front of the caller's buffer, and tells how many bytes it has: none if the input has ended. At
    /// most `limit` bytes are taken in all. The reading's own piece stays.
    pub fn next_into<R: ReadCalls>(
        &mut self,
        reader: &mut R,
        limit: u64,
        buffer: &mut [u8],
    ) -> Result<usize, ReadFault>
        requires room { 0 < length buffer.old }
        ensures more { IfOk result (λ count. 0 < count → TakesPiece R.calls limit reader.old self.old reader.new
            (record self.new { piece = take count buffer.new })) }
        ensures end { IfOk result (λ count. count ≡ 0
            → FindsEnd R.calls limit reader.old self.old reader.new) }
        ensures refused { IfErr result (GivesUp R.calls limit reader.old self.old reader.new) }
        ensures memory { IfErr result (λ f. f ≢ ReadFault.NoMemory) }
        ensures within { IfOk result (λ count. count ≤ length buffer.new) }
        ensures piece { self.new.piece ≡ self.old.piece }
        ensures taken { IfOk result (λ count. self.new.taken ≡ self.old.taken + count) }
    {
        let left = limit.saturating_sub(self.taken);
        let count = read_retrying(reader, buffer, left, &mut self.interruptions)?;
        self.taken += count as u64;
        Ok(count)
    }

    /// The bytes that the last call of `next_piece` read: none at the end of the input, after a fault, and before the first.
    pub fn piece(&self) -> &[u8]
        ensures { result.now ≡ self.now.piece }
    {
        &self.buffer.as_slice()[..self.count]
    }
}

/// Reads into the buffer's front, again while reads are interrupted, if the limit leaves `left` bytes. It tells how many bytes were
/// read: none at the end of the input.
fn read_retrying<R: ReadCalls>(
    reader: &mut R,
    buffer: &mut [u8],
    left: u64,
    interruptions: &mut u32,
) -> Result<usize, ReadFault>
    requires room { 0 < length buffer.old }
    requires few { interruptions.old < MOST_INTERRUPTIONS }
    ensures come { (limit : ℕ) (first : R) (bytes : List ℕ) → limit ≡ length bytes + left
        → HasCome R.calls limit first reader.old (record { bytes = bytes; interruptions = interruptions.old })
        → ComesTo R.calls limit first reader.new bytes buffer.new interruptions.new result }
    ensures count { IfOk result (λ count. (count ≤ left) × (count ≤ length buffer.new)) }
    ensures memory { IfErr result (λ f. f ≢ ReadFault.NoMemory) }
    ensures few { interruptions.new < MOST_INTERRUPTIONS }
{
    // A byte past the limit shows that there are too many.
    let room = left.saturating_add(1).min(buffer.len() as u64) as usize;
    'retrying: loop {
        let answer = reader.read_some(&mut buffer[..room]);
        match turn_after(answer, left, *interruptions) {
            Turn::End => return Ok(0),
            Turn::Bytes(count) => return Ok(count),
            Turn::Again(turns) => *interruptions = turns,
            Turn::Stop(fault) => return Err(fault),
        }
    }
}

/// What follows the answer of a read.
enum Turn {
    /// The input has ended.
    End,
    /// This many bytes were read, within the limit.
    Bytes(usize),
    /// One more read was interrupted. This many were by now, and there may be more.
    Again(u32),
    /// The reading ends with a fault.
    Stop(ReadFault),
}

/// What follows the answer, if the limit leaves `left` bytes and this many reads were interrupted before.
fn turn_after(answer: io::Result<usize>, left: u64, interruptions: u32) -> Turn
    requires { interruptions < MOST_INTERRUPTIONS }
    ensures { Follows left interruptions answer result }
{
    match answer {
        Ok(0) => Turn::End,
        Ok(count) => {
            if count as u64 > left {
                return Turn::Stop(ReadFault::TooLong);
            }
            Turn::Bytes(count)
        }
        Err(error) => {
            if error.kind() != ErrorKind::Interrupted {
                return Turn::Stop(ReadFault::Device);
            }
            let turns = interruptions + 1;
            if turns < MOST_INTERRUPTIONS {
                Turn::Again(turns)
            } else {
                Turn::Stop(ReadFault::TooManyTurns)
            }
        }
    }
}
