//! Where the bytes of a core file lie in memory.
ghost use Rattle.std.specs.Prelude.{◌≡◌, ◌+◌, ◌/◌, ◌<◌, min};
ghost use Rattle.leak_elf.specs.Segments.{AreKeptSegments};
ghost use Rattle.leak_sift.specs.Places.{AreOrderly};
ghost use Rattle.leak_sift.specs.Runs.{IsFirstLater, IsReached, IsRunAt, has_later};

use leak_elf::Segment;
use std::marker::Model;

/// Words of a file that lie in memory one after another, or in no segment.
#[derive(Clone, Copy)]
pub(crate) struct Run {
    /// How many words.
    pub(crate) words: usize,
    /// The address of the first one.
    pub(crate) place: Option<u64>,
}

/// The segments of a core file. If offsets ascend, each segment is passed once.
#[derive(Drop)]
pub(crate) struct Places<'a> {
    segments: &'a [Segment],
    /// How many segments, the first ones, have no byte at the last offset nor after it.
    passed: usize,
    last: u64,
}

impl<'a> Model for Places<'a> {
    ghost use Rattle.std.specs.Prelude.{List};
    ghost use Rattle.leak_elf.specs.declared.segment.Segment.{Segment};
    ghost use Rattle.leak_sift.specs.Runs.{ArePlaces};

    ghost Value = { List Segment };

    ghost view = { λ places. places.segments.now };

    ghost invariant = { λ places. ArePlaces places.segments.now places.last places.passed };
}

impl<'a> Places<'a> {
    /// The segments, by ascending address.
    pub(crate) fn new(segments: &'a [Segment]) -> Places<'a>
        requires kept { AreKeptSegments segments.now }
        requires orderly { AreOrderly segments.now }
        ensures { result ≡ segments.now }
    {
        Places {
            segments,
            passed: 0,
            last: 0,
        }
    }

    /// The same segments, for other offsets.
    pub(crate) fn again(&self) -> Places<'a>
        ensures { result ≡ self.now }
    {
        Places {
            segments: self.segments,
            passed: self.passed,
            last: self.last,
        }
    }

    /// The run of at most so many words from the offset on.
    pub(crate) fn run_at(&mut self, offset: u64, most: usize) -> Run
        requires { 0 < most }
        ensures run { IsRunAt self.old offset most result }
        ensures same { self.new ≡ self.old }
    {
        let from = if offset < self.last { 0 } else { self.passed };
        self.passed = count_reached(self.segments, offset, from);
        self.last = offset;
        run_in(self.segments, self.passed, offset, most)
    }
}

/// How many segments, the first ones, have no byte at the offset nor after it. So many of them are known.
fn count_reached(segments: &[Segment], offset: u64, known: usize) -> usize
    requires { IsReached segments.now offset known }
    ensures { IsFirstLater segments.now offset result }
{
    let mut count = known;
    while count < segments.len() && !has_later(&segments[count], offset) {
        count += 1;
    }
    count
}

/// Whether the segment has a dumped byte at the offset, or after it.
fn has_later(segment: &Segment, offset: u64) -> bool
    ensures { result ≡ has_later offset segment.now }
{
    if segment.filesz == 0 {
        return false;
    }
    offset < segment.offset || offset - segment.offset < segment.filesz
}

/// The run of at most so many words from the offset on. The segment with the number, if there is one, is the first that
/// has a byte there or after it.
fn run_in(segments: &[Segment], number: usize, offset: u64, most: usize) -> Run
    requires kept { AreKeptSegments segments.now }
    requires orderly { AreOrderly segments.now }
    requires first { IsFirstLater segments.now offset number }
    requires some { 0 < most }
    ensures { IsRunAt segments.now offset most result }
{
    if number >= segments.len() {
        return Run {
            words: most,
            place: None,
        };
    }
    let segment = segments[number];
    if offset < segment.offset {
        return Run {
            words: words_before(segment.offset - offset, most),
            place: None,
        };
    }
    let distance = offset - segment.offset;
    Run {
        words: words_before(segment.filesz - distance, most),
        place: Some(segment.vaddr + distance),
    }
}

/// How many words begin within so many bytes, but at most so many.
fn words_before(bytes: u64, most: usize) -> usize
    ensures { result ≡ min ((bytes + 7) / 8) most }
{
    bytes.div_ceil(8).min(most as u64) as usize
}
