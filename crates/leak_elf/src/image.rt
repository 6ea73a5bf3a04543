//! An accepted core file.

ghost use Rattle.std.specs.Prelude.{◌≡◌, ◌≢◌, ℕ, List, Some, None, IfOk, IfErr, ◌<◌, ◌+◌, ◌++◌, ◌⊎◌, ◌^◌, [], length, slice_index_or};
ghost use Rattle.leak_elf.specs.declared.segment.Segment.{Segment};
ghost use Rattle.leak_elf.specs.declared.segment.NotePart.{NotePart};
ghost use Rattle.leak_elf.specs.Head.{IsHead, AreSplit};
ghost use Rattle.leak_elf.specs.Refusals.{fault_of};
ghost use Rattle.leak_elf.specs.Segments.{segments_of, note_parts_of, undumped_of, bytes_at, AreSegments, AreParts};
ghost use Rattle.leak_elf.specs.Words.{word_of, AreHolders};

use crate::error::ElfError;
use crate::fields::bytes_from;
use crate::header::read_headers;
use crate::refusal::{check_file, check_headers};
use crate::rest::{NoRest, Rest};
use crate::search::{
    find_holders, find_kept, find_largest, find_next, find_past_zeros, find_run, find_word,
};
use crate::segment::{NotePart, Segment, kept_parts, sum_undumped};
use crate::words::Words;
use std::alloc::Global;
use std::marker::Model;

/// An accepted core file. Contracts see it as the bytes of the file.
///
/// It holds the first bytes of the file, by default all. Of the others it asks for words alone.
#[derive(Drop)]
pub struct Image<'a, R: Rest = NoRest> {
    held: &'a [u8],
    rest: R,
    segments: Vec<Segment>,
    /// The number of a segment with the most bytes. It helps to find segments, and no answer depends on it.
    largest: usize,
    holders: Vec<usize>,
    parts: Vec<NotePart>,
}

impl<'a, R: Rest> Model for Image<'a, R> {
    ghost Value = { List ℕ };

    ghost view = { λ image. image.held.now ++ R.bytes image.rest };

    ghost invariant = { λ image. (fault_of (image.held.now ++ R.bytes image.rest) ≡ None)
        × (image.segments.items ≡ segments_of (image.held.now ++ R.bytes image.rest))
        × (image.parts.items ≡ note_parts_of (image.held.now ++ R.bytes image.rest))
        × AreSplit image.held.now (R.bytes image.rest) image.segments.items
        × AreParts image.held.now image.parts.items
        × AreHolders image.segments.items image.holders.items };
}

impl<'a, R: Rest> Words for Image<'a, R> {
    ghost use Rattle.leak_elf.specs.Words.{word_of};
    ghost use Rattle.leak_elf.specs.Aligned.{aligned_words};

    ghost word_at = { λ image. word_of image };

    #[tactic(auto, unfolding(crate::specs::Words::word_of))]
    fn word(&self, addr: u64) -> Option<u64> {
        let segments = self.segments.as_slice();
        find_word(self.held, &self.rest, segments, self.largest, addr)
    }

    fn next(&self, from: u64) -> Option<u64> {
        let segments = self.segments.as_slice();
        find_next(segments, self.largest, self.holders.as_slice(), from)
    }

    #[tactic(auto, unfolding(crate::specs::Words::word_of))]
    fn skip_zeros(&self, from: u64) -> Option<u64> {
        let segments = self.segments.as_slice();
        find_past_zeros(
            self.held,
            &self.rest,
            segments,
            self.largest,
            self.holders.as_slice(),
            from,
        )
    }

    #[tactic(auto, unfolding(crate::specs::Words::word_of))]
    fn run(&self, from: u64) -> &[u8] {
        let segments = self.segments.as_slice();
        find_run(self.held, &self.rest, segments, self.largest, from)
    }

    #[inline(always)]
    #[tactic(auto, unfolding(crate::specs::Words::word_of))]
    fn kept(&self, from: u64, count: u64) -> Option<&[u64]> {
        let segments = self.segments.as_slice();
        find_kept(self.held, &self.rest, segments, self.largest, from, count)
    }

    ghost aligned = { aligned_words };
}

impl<'a> Image<'a, NoRest> {
    /// Reads a core file, or gives the first reason against it.
    pub fn read(alloc: Global, core: &'a [u8]) -> Result<Image<'a, NoRest>, ElfError>
        ensures ok { IfOk result (λ image. (image ≡ core.now) × (fault_of core.now ≡ None)) }
        ensures refused { IfErr result (λ e. e ≢ ElfError.NoMemory → fault_of core.now ≡ Some e) }
    {
        Image::passed(alloc, core, NoRest)
    }

    /// The dumped bytes of the segment with the number, from 0. It is for libraries and tests.
    #[tactic(auto, unfolding(crate::specs::Segments::segments_of))]
    pub fn bytes_of(&self, i: usize) -> &'a [u8]
        requires { i < length (segments_of self.now) }
        ensures { (d : Segment) →
            let s = slice_index_or (segments_of self.now) i d in
            result.now ≡ bytes_at self.now s.offset s.filesz }
    {
        let segment = self.segments[i];
        bytes_from(self.held, segment.offset, segment.filesz)
    }
}

impl<'a, R: Rest> Image<'a, R> {
    /// Reads a core file that is held, or of which the head is held, with the rest behind it. Gives the first reason against it.
    pub fn passed(alloc: Global, held: &'a [u8], rest: R) -> Result<Image<'a, R>, ElfError>
        requires { (R.bytes rest ≡ []) ⊎ IsHead held.now }
        ensures ok { IfOk result (λ image.
            (image ≡ held.now ++ R.bytes rest) × (fault_of (held.now ++ R.bytes rest) ≡ None)) }
        ensures refused { IfErr result (λ e.
            e ≢ ElfError.NoMemory → fault_of (held.now ++ R.bytes rest) ≡ Some e) }
    {
        let count = check_file(held)?;
        let headers = read_headers(alloc, held, count)?;
        let len = held.len() as u64 + rest.len();
        let segments = check_headers(alloc, len, headers.as_slice())?;
        let holders = find_holders(alloc, segments.as_slice())?;
        let largest = find_largest(segments.as_slice());
        let parts = kept_parts(alloc, headers.as_slice())?;
        Ok(Image {
            held,
            rest,
            segments,
            largest,
            holders,
            parts,
        })
    }

    /// How many bytes the file has.
    pub fn len(&self) -> u64
        ensures { result ≡ length self.now }
    {
        self.held.len() as u64 + self.rest.len()
    }

    /// The segments by ascending address, without those of no addresses.
    pub fn segments(&self) -> &[Segment]
        ensures segments { result.now ≡ segments_of self.now }
        ensures accepted { fault_of self.now ≡ None }
        ensures apart { AreSegments self.now result.now }
    {
        self.segments.as_slice()
    }

    /// The parts of the file that hold notes, in the order of the headers.
    pub fn note_parts(&self) -> &[NotePart]
        ensures { result.now ≡ note_parts_of self.now }
    {
        self.parts.as_slice()
    }

    /// The bytes of the part of notes with the number, from 0.
    #[tactic(auto, unfolding(crate::specs::Segments::note_parts_of))]
    pub fn note_bytes(&self, i: usize) -> &'a [u8]
        requires { i < length (note_parts_of self.now) }
        ensures value { (d : NotePart) →
            let p = slice_index_or (note_parts_of self.now) i d in
            result.now ≡ bytes_at self.now p.offset p.filesz }
        ensures end { (d : NotePart) →
            let p = slice_index_or (note_parts_of self.now) i d in
            p.offset + length result.now < 2 ^ 64 }
    {
        let part = self.parts[i];
        bytes_from(self.held, part.offset, part.filesz)
    }

    /// How many bytes of writable segments are not in the file.
    #[tactic(auto, unfolding(crate::specs::Segments::undumped_of))]
    pub fn undumped(&self) -> u64
        ensures { result ≡ undumped_of self.now }
    {
        sum_undumped(self.segments.as_slice())
    }
}
