//! Whether the segments of a core file lie in it in the order of their addresses.
ghost use Rattle.std.specs.Prelude.{◌≡◌, ◌↔◌, ◌+◌, ◌≤◌, IsTrue};
ghost use Rattle.leak_sift.specs.Places.{AreOrderly};

use leak_elf::Segment;

/// Whether the dumped bytes of each segment begin in the file at the end of those of the earlier ones, or after it.
/// Segments of which nothing is dumped may lie anywhere.
pub fn are_orderly(segments: &[Segment]) -> bool
    ensures { IsTrue result ↔ AreOrderly segments.now }
{
    // where the dumped bytes of the last segment so far that has any begin, and how many there are
    let mut offset = 0;
    let mut filesz = 0;
    for segment in segments {
        if segment.filesz > 0 {
            if !begins_past(segment, offset, filesz) {
                return false;
            }
            offset = segment.offset;
            filesz = segment.filesz;
        }
    }
    true
}

/// Whether the segment begins in the file past so many bytes from the offset on.
fn begins_past(segment: &Segment, offset: u64, filesz: u64) -> bool
    ensures { IsTrue result ↔ offset + filesz ≤ segment.now.offset }
{
    segment.offset >= offset && segment.offset - offset >= filesz
}
