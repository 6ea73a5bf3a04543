//! Pieces of the root words by their numbers, with no list of them.

ghost use Rattle.std.specs.Prelude.{◌≡◌, ◌↔◌, ℕ, ◌+◌, ◌*◌, ◌<◌, ◌≤◌, ◌^◌, length, slice_index_or, IfOk, Err};
ghost use Rattle.leak_roots.specs.Places.{AreRanges};
ghost use Rattle.leak_roots.specs.Pieces.{AreCut};
ghost use Rattle.leak_roots.specs.Cut.{pieces_of, memory_pieces, range_pieces, pieces_before};
ghost use Rattle.leak_roots.specs.Numbers.{AreListed};
ghost use Rattle.leak_roots.specs.declared.piece.Piece.{Piece};
ghost use Rattle.leak_roots.specs.declared.pieces.Long.{Long};

use crate::error::CutError;
use crate::piece::{Piece, count_in, piece_in, piece_of_registers};
use crate::roots::Roots;
use std::alloc::{AllocError, Global};
use std::marker::Model;

/// A range of memory of more than one piece.
#[derive(Clone, Copy)]
pub(crate) struct Long {
    /// The number of its first piece, among the pieces of memory.
    first: usize,
    /// Its place in the list of ranges.
    range: usize,
}

/// The pieces of root words, each told by its number.
///
/// Between two heap blocks there is a range of two words, so there are about as many ranges as blocks. Most are one
/// piece: those of more pieces alone are listed.
#[derive(Drop)]
pub struct Pieces<'a> {
    roots: &'a Roots,
    /// How many words a piece has at most.
    words: usize,
    /// How many pieces the register words make.
    registers: usize,
    /// The ranges of more than one piece, in order.
    long: Vec<Long>,
    /// How many pieces there are.
    len: usize,
}

impl<'a> Model for Pieces<'a> {
    ghost use Rattle.std.specs.Prelude.{List};
    ghost use Rattle.leak_roots.specs.declared.piece.Piece.{Piece};

    ghost Value = { List Piece };

    ghost use Rattle.leak_roots.specs.Cut.{pieces_of};
    ghost use Rattle.leak_roots.specs.Numbers.{AreNumbered};

    ghost view = { λ p. pieces_of p.words p.roots.now };

    ghost invariant = { λ p. AreNumbered p.words p.roots.now p.registers p.long.items p.len };
}

impl<'a> Pieces<'a> {
    /// The pieces of at most `words` words.
    pub(crate) fn new(alloc: Global, roots: &'a Roots, words: usize) -> Result<Pieces<'a>, CutError>
        ensures zero { (result ≡ Err CutError.Zero) ↔ (words ≡ 0) }
        ensures value { IfOk result (λ pieces. pieces ≡ pieces_of words roots.now) }
        ensures cut { IfOk result (AreCut roots.now words) }
    {
        if words == 0 {
            return Err(CutError::Zero);
        }
        let registers = roots.registers().len().div_ceil(words);
        let (long, count) = list_long(alloc, roots.memory(), words)?;
        Ok(Pieces {
            roots,
            words,
            registers,
            long,
            len: registers + count,
        })
    }

    /// How many pieces there are.
    pub fn len(&self) -> usize
        ensures count { result ≡ length self.now }
        ensures few { result < 2 ^ 62 }
    {
        self.len
    }

    /// The piece with a number, from 0: those of the registers first, then those of memory by address.
    pub fn at(&self, place: usize) -> Piece
        requires { place < length self.now }
        ensures { (d : Piece) → result ≡ slice_index_or self.now place d }
    {
        if place < self.registers {
            return piece_of_registers(self.roots.registers().len(), self.words, place);
        }
        let memory = self.roots.memory();
        let (range, within) = find_range(memory, &self.long, self.words, place - self.registers);
        piece_in(memory[range], self.words, within)
    }
}

/// Lists the ranges of more than one piece, and says how many pieces all ranges make.
fn list_long(
    alloc: Global,
    ranges: &[(u64, u64)],
    words: usize,
) -> Result<(Vec<Long>, usize), AllocError>
    requires some { 0 < words }
    requires ranges { AreRanges ranges.now }
    ensures long { IfOk result (λ found.
        AreListed words ranges.now 0 found.0.items (length ranges.now)) }
    ensures count { IfOk result (λ found. found.1 ≡ length (memory_pieces words ranges.now)) }
    ensures few { IfOk result (λ found. 8 * found.1 < 2 ^ 64) }
{
    let mut long = Vec::new(alloc);
    let mut count = 0;
    for (place, range) in ranges.iter().enumerate() {
        let pieces = count_in(*range, words);
        if pieces > 1 {
            long.push(Long {
                first: count,
                range: place,
            })?;
        }
        count += pieces;
    }
    Ok((long, count))
}

/// How many of the ranges begin with the piece or before it.
fn count_up_to(long: &[Long], piece: usize) -> usize
    requires { (i j : ℕ) (d : Long) → i ≤ j → j < length long.now
        → (slice_index_or long.now i d).first ≤ (slice_index_or long.now j d).first }
    ensures bound { result ≤ length long.now }
    ensures within { (k : ℕ) (d : Long) → k < result
        → (slice_index_or long.now k d).first ≤ piece }
    ensures beyond { (k : ℕ) (d : Long) → result ≤ k → k < length long.now
        → piece < (slice_index_or long.now k d).first }
{
    long.partition_point(|range| range.first <= piece)
}

/// The place of the range that has a piece of memory, and the number of the piece in it. From a range of more than one
/// piece on, up to the next, each range is one piece.
fn find_range(ranges: &[(u64, u64)], long: &[Long], words: usize, piece: usize) -> (usize, usize)
    requires some { 0 < words }
    requires ranges { AreRanges ranges.now }
    requires long { AreListed words ranges.now 0 long.now (length ranges.now) }
    requires piece { piece < length (memory_pieces words ranges.now) }
    ensures range { result.0 < length ranges.now }
    ensures within { (d : ℕ × ℕ) →
        result.1 < length (range_pieces words (slice_index_or ranges.now result.0 d)) }
    ensures place { pieces_before words ranges.now result.0 + result.1 ≡ piece }
{
    let next = count_up_to(long, piece);
    if next == 0 {
        return (piece, 0);
    }
    let last = long[next - 1];
    let count = count_in(ranges[last.range], words);
    let within = piece - last.first;
    if within < count {
        (last.range, within)
    } else {
        (last.range + 1 + (within - count), 0)
    }
}
