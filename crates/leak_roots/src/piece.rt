//! Pieces of the root words.

ghost use Rattle.std.specs.Prelude.{◌≡◌, ◌+◌, ◌*◌, ◌++◌, ◌<◌, ◌≤◌, ◌^◌, length, map, flat_map, slice_index_or, OnOk};
ghost use Rattle.std.specs.List.{AllByRecursion, range_with_len};
ghost use Rattle.leak_roots.specs.Places.{Places, IsRange, addresses_in};
ghost use Rattle.leak_roots.specs.Pieces.{IsCutPiece, places_of};
ghost use Rattle.leak_roots.specs.Pieces.Place.{InRegisters, InMemory};
ghost use Rattle.leak_roots.specs.Cut.{cut_count, span, register_pieces, words_in, range_pieces};

use std::alloc::AllocError;

/// A piece of the root words, from its first place up to its end, which is excluded.
#[derive(Clone, Copy, Debug, PartialEq, Eq)]
pub enum Piece {
    /// Register words, by their numbers from 0.
    Registers(usize, usize),
    /// Words in memory, by their addresses. Both are multiples of 8.
    Memory(u64, u64),
}

/// Adds pieces of at most `words` words, which together are all register words.
pub(crate) fn push_registers(
    pieces: &mut Vec<Piece>,
    registers: &[u64],
    words: usize,
) -> Result<(), AllocError>
    requires { 0 < words }
    ensures places { OnOk result (flat_map places_of pieces.new.items
        ≡ flat_map places_of pieces.old.items
        ++ map InRegisters (range_with_len 0 (length registers.now))) }
    ensures each { (p : Places) → length p.registers ≡ length registers.now
        → OnOk result (AllByRecursion (IsCutPiece p words) pieces.old.items
        → AllByRecursion (IsCutPiece p words) pieces.new.items) }
{
    let mut from = 0;
    while from < registers.len() {
        let to = from + words.min(registers.len() - from);
        pieces.push(Piece::Registers(from, to))?;
        from = to;
    }
    Ok(())
}

/// Adds pieces of at most `words` words, which together are a range of memory.
pub(crate) fn push_memory(
    pieces: &mut Vec<Piece>,
    range: (u64, u64),
    words: usize,
) -> Result<(), AllocError>
    requires some { 0 < words }
    requires range { IsRange range }
    ensures places { OnOk result (flat_map places_of pieces.new.items
        ≡ flat_map places_of pieces.old.items ++ map InMemory (addresses_in range)) }
    ensures each { (p : Places)
        → OnOk result (AllByRecursion (IsCutPiece p words) pieces.old.items
        → AllByRecursion (IsCutPiece p words) pieces.new.items) }
{
    let (mut from, end) = range;
    while from < end {
        let to = from + 8 * ((end - from) / 8).min(words as u64);
        pieces.push(Piece::Memory(from, to))?;
        from = to;
    }
    Ok(())
}

/// The first word of a piece and its end, by its number among the pieces of `count` words.
fn span_of(count: u64, words: u64, place: u64) -> (u64, u64)
    requires some { 0 < words }
    requires place { place < cut_count words count }
    ensures value { result ≡ span words count place }
    ensures order { result.0 ≤ result.1 }
    ensures end { result.1 ≤ count }
{
    let from = words * place;
    (from, from + words.min(count - from))
}

/// A piece of `count` register words, by its number.
pub(crate) fn piece_of_registers(count: usize, words: usize, place: usize) -> Piece
    requires some { 0 < words }
    requires place { place < cut_count words count }
    ensures { (d : Piece) → result ≡ slice_index_or (register_pieces words count) place d }
{
    let (from, to) = span_of(count as u64, words as u64, place as u64);
    Piece::Registers(from as usize, to as usize)
}

/// How many pieces a range of memory makes.
pub(crate) fn count_in(range: (u64, u64), words: usize) -> usize
    requires some { 0 < words }
    requires range { IsRange range }
    ensures count { result ≡ length (range_pieces words range) }
    ensures some { 0 < result }
    ensures fits { range.0 + 8 * result < 2 ^ 64 }
{
    ((range.1 - range.0) / 8).div_ceil(words as u64) as usize
}

/// A piece of a range of memory, by its number among those of the range.
pub(crate) fn piece_in(range: (u64, u64), words: usize, place: usize) -> Piece
    requires some { 0 < words }
    requires range { IsRange range }
    requires place { place < length (range_pieces words range) }
    ensures { (d : Piece) → result ≡ slice_index_or (range_pieces words range) place d }
{
    let (from, to) = span_of((range.1 - range.0) / 8, words as u64, place as u64);
    Piece::Memory(range.0 + 8 * from, range.0 + 8 * to)
}
