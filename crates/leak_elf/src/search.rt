//! Searches among segments by ascending address.

ghost use Rattle.std.specs.Prelude.{◌≡◌, ◌≤◌, ◌+◌, ◌*◌, ◌<◌, ◌%◌, ◌^◌, ◌++◌, ℕ, [], ◌∷◌, length, slice_index_or, IfSome, IfOk, IsSome, IsTrue};
ghost use Rattle.leak_elf.specs.declared.segment.Segment.{Segment};
ghost use Rattle.leak_elf.specs.Head.{AreSplit};
ghost use Rattle.leak_elf.specs.Segments.{IsAscending, IsLastUpTo, IsKeptSegment, AreKeptSegments};
ghost use Rattle.leak_elf.specs.Words.{IsRun, word_in, IsNextHeld, IsPastZeros, AreHolders, AreZeros, kept_words};

use crate::fields::u64_at;
use crate::rest::Rest;
use crate::segment::Segment;
use std::alloc::{AllocError, Global};

/// Whether the segment with the number is the last that begins at the address or before it.
fn is_last(segments: &[Segment], number: usize, addr: u64) -> bool
    requires { number < length segments.now }
    ensures { IsTrue result → (d : Segment) → IsLastUpTo segments.now number addr d }
{
    if addr < segments[number].vaddr {
        return false;
    }
    number + 1 == segments.len() || addr < segments[number + 1].vaddr
}

/// How many segments begin at the address or before it. The guess is the number of the segment that is tried first.
pub(crate) fn count_up_to(segments: &[Segment], guess: usize, addr: u64) -> usize
    requires { IsAscending segments.now }
    ensures bound { result ≤ length segments.now }
    ensures within { (k : ℕ) (d : Segment) →
        k < result → (slice_index_or segments.now k d).vaddr ≤ addr }
    ensures beyond { (k : ℕ) (d : Segment) →
        result ≤ k → k < length segments.now → addr < (slice_index_or segments.now k d).vaddr }
{
    if guess < segments.len() && is_last(segments, guess, addr) {
        return guess + 1;
    }
    segments.partition_point(|segment| segment.vaddr <= addr)
}

/// The number of a segment that has the most bytes in the file. Most words are asked for in that one, so it is the guess.
pub(crate) fn find_largest(segments: &[Segment]) -> usize {
    let mut largest = 0;
    let mut most = 0;
    for (number, segment) in segments.iter().enumerate() {
        if segment.filesz > most {
            largest = number;
            most = segment.filesz;
        }
    }
    largest
}

/// The word at the address.
pub(crate) fn find_word<R: Rest>(
    held: &[u8],
    rest: &R,
    segments: &[Segment],
    largest: usize,
    addr: u64,
) -> Option<u64>
    requires { AreSplit held.now (R.bytes rest.now) segments.now }
    ensures value { result ≡ word_in (held.now ++ R.bytes rest.now) segments.now addr }
    ensures place { IfSome result (λ _. (addr % 8 ≡ 0) × (addr + 8 ≤ 2 ^ 64)) }
{
    if addr % 8 != 0 {
        return None;
    }
    let count = count_up_to(segments, largest, addr);
    if count == 0 {
        return None;
    }
    let segment = segments[count - 1];
    let end = segment.vaddr + segment.filesz;
    if end.saturating_sub(addr) < 8 {
        return None;
    }
    let at = (segment.offset + (addr - segment.vaddr)) as usize;
    if at >= held.len() {
        return rest.word(at - held.len());
    }
    Some(u64_at(held, at))
}

/// The least address from `from` on whose word the segment holds.
fn find_next_in(segment: Segment, from: u64) -> Option<u64>
    requires { IsKeptSegment segment }
    ensures least { IsNextHeld (segment ∷ []) from result }
    ensures place { IfSome result (λ addr. (addr % 8 ≡ 0) × (addr + 8 ≤ 2 ^ 64)) }
{
    let low = from.max(segment.vaddr);
    let gap = (8 - low % 8) % 8;
    let end = segment.vaddr + segment.filesz;
    if end.saturating_sub(low) < gap + 8 {
        return None;
    }
    Some(low + gap)
}

/// For each segment, the number of the first segment at or after it that holds a word, or the number of
/// segments if there is none.
pub(crate) fn find_holders(alloc: Global, segments: &[Segment]) -> Result<Vec<usize>, AllocError>
    requires { AreKeptSegments segments.now }
    ensures { IfOk result (λ v. AreHolders segments.now v.items) }
{
    let mut holder = segments.len();
    let mut holders = vec![in alloc; holder; segments.len()]?;
    for i in (0..segments.len()).rev() {
        if find_next_in(segments[i], 0).is_some() {
            holder = i;
        }
        holders[i] = holder;
    }
    Ok(holders)
}

/// The least address from `from` on that has a word.
///
/// Of the segments that begin up to `from` only the last can hold it. The table of holders gives the
/// first of the later ones that can, since tens of thousands in a row may hold no word.
pub(crate) fn find_next(
    segments: &[Segment],
    largest: usize,
    holders: &[usize],
    from: u64,
) -> Option<u64>
    requires kept { AreKeptSegments segments.now }
    requires holders { AreHolders segments.now holders.now }
    ensures least { IsNextHeld segments.now from result }
    ensures place { IfSome result (λ addr. (addr % 8 ≡ 0) × (addr + 8 ≤ 2 ^ 64)) }
{
    let count = count_up_to(segments, largest, from);
    if count > 0 {
        let here = find_next_in(segments[count - 1], from);
        if here.is_some() {
            return here;
        }
    }
    let holder = *holders.get(count)?;
    find_next_in(*segments.get(holder)?, from)
}

/// An address from `from` on that has a word, past words behind the head that are 0.
pub(crate) fn find_past_zeros<R: Rest>(
    held: &[u8],
    rest: &R,
    segments: &[Segment],
    largest: usize,
    holders: &[usize],
    from: u64,
) -> Option<u64>
    requires split { AreSplit held.now (R.bytes rest.now) segments.now }
    requires holders { AreHolders segments.now holders.now }
    ensures zeros { IsPastZeros (word_in (held.now ++ R.bytes rest.now) segments.now) from result }
    ensures place { IfSome result (λ addr. (addr % 8 ≡ 0) × (addr + 8 ≤ 2 ^ 64)) }
{
    let (later, is_word) = pass_zeros(held, rest, segments, largest, from);
    if is_word {
        return Some(later);
    }
    find_next(segments, largest, holders, later)
}

/// An address up to which the segment has no words but zeros, from `from` on, and whether it is known to have a word.
fn pass_zeros<R: Rest>(
    held: &[u8],
    rest: &R,
    segments: &[Segment],
    largest: usize,
    from: u64,
) -> (u64, bool)
    requires { AreSplit held.now (R.bytes rest.now) segments.now }
    ensures later { from ≤ result.0 }
    ensures zeros { AreZeros (word_in (held.now ++ R.bytes rest.now) segments.now) from result.0 }
    ensures word { IsTrue result.1 →
        IsSome (word_in (held.now ++ R.bytes rest.now) segments.now result.0) }
    ensures place { IsTrue result.1 → (result.0 % 8 ≡ 0) × (result.0 + 8 ≤ 2 ^ 64) }
{
    if from % 8 != 0 {
        return (from, false);
    }
    let count = count_up_to(segments, largest, from);
    if count == 0 {
        return (from, false);
    }
    let segment = segments[count - 1];
    let end = segment.vaddr + segment.filesz;
    if end.saturating_sub(from) < 8 {
        return (from, false);
    }
    let at = (segment.offset + (from - segment.vaddr)) as usize;
    if at < held.len() {
        return (from, true);
    }
    let behind = at - held.len();
    let zeros = (rest.skip_zeros(behind) - behind) as u64;
    if zeros > end - from - 8 {
        return (end, false);
    }
    (from + zeros, true)
}

/// The dumped bytes from a multiple of 8 on, up to the end of those of its segment, as far as they are held.
pub(crate) fn find_run<'a, R: Rest>(
    held: &'a [u8],
    rest: &R,
    segments: &[Segment],
    largest: usize,
    from: u64,
) -> &'a [u8]
    requires { AreSplit held.now (R.bytes rest.now) segments.now }
    ensures { IsRun (word_in (held.now ++ R.bytes rest.now) segments.now) from result.now }
{
    // If no dumped byte is held, as of a core that is passed, no segment is searched for.
    if from % 8 != 0 || segments.is_empty() || held.len() as u64 <= segments[0].offset {
        return &[];
    }
    let count = count_up_to(segments, largest, from);
    if count == 0 {
        return &[];
    }
    let segment = segments[count - 1];
    let end = segment.vaddr + segment.filesz;
    if end <= from {
        return &[];
    }
    let start = (segment.offset + (from - segment.vaddr)) as usize;
    if start >= held.len() {
        return &[];
    }
    &held[start..held.len().min(start + (end - from) as usize)]
}

/// Of the words at `count` addresses from this one on, each 8 after the one before it, those that aren't 0, if one
/// segment has them all behind the bytes that are held, and the rest tells them at once.
#[inline(always)]
pub(crate) fn find_kept<'a, R: Rest>(
    held: &[u8],
    rest: &'a R,
    segments: &[Segment],
    largest: usize,
    from: u64,
    count: u64,
) -> Option<&'a [u64]>
    requires { AreSplit held.now (R.bytes rest.now) segments.now }
    ensures kept { let word_at = word_in (held.now ++ R.bytes rest.now) segments.now in
        IfSome result (λ kept. kept.now ≡ kept_words word_at from count) }
    ensures place { IfSome result (λ _. (from % 8 ≡ 0) × (from + 8 * count < 2 ^ 64)) }
{
    if from % 8 != 0 {
        return None;
    }
    let before = count_up_to(segments, largest, from);
    if before == 0 {
        return None;
    }
    let segment = segments[before - 1];
    let end = segment.vaddr + segment.filesz;
    if end.saturating_sub(from) / 8 < count.max(1) {
        return None;
    }
    let at = (segment.offset + (from - segment.vaddr)) as usize;
    if at < held.len() {
        return None;
    }
    rest.kept(at - held.len(), count as usize)
}
