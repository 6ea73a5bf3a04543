//! The segments and the parts of notes that an image keeps.

ghost use Rattle.std.specs.Prelude.{◌≡◌, ◌<◌, ℕ, length, slice_index_or, map, filter, IfOk};
ghost use Rattle.leak_elf.specs.declared.segment.Segment.{Segment};
ghost use Rattle.leak_elf.specs.Headers.{is_note};
ghost use Rattle.leak_elf.specs.Segments.{kept_of, IsAscending, AreKeptSegments, segment_of, part_of, any_meet, lacking};

use crate::header::{Header, PF_W, PT_LOAD, PT_NOTE};
use std::alloc::{AllocError, Global};

/// A part of the address space, and where its dumped bytes are in the file (gABI, PT_LOAD).
#[derive(Clone, Copy, Debug, PartialEq, Eq)]
pub struct Segment {
    /// The first address.
    pub vaddr: u64,
    /// How many addresses it has.
    pub memsz: u64,
    /// The file offset of its dumped bytes.
    pub offset: u64,
    /// How many bytes are dumped: those of its first addresses. The others are not in the file.
    pub filesz: u64,
    /// Whether the process could write it.
    pub writable: bool,
}

/// A part of the file that holds notes (gABI, PT_NOTE).
#[derive(Clone, Copy, Debug, PartialEq, Eq)]
pub struct NotePart {
    /// The file offset of its first byte. If `filesz` is 0 it may lie past the end of the file.
    pub offset: u64,
    /// Its size in bytes.
    pub filesz: u64,
}

/// The segment that a header describes.
fn read_segment(header: Header) -> Segment
    ensures { result ≡ segment_of header }
{
    Segment {
        vaddr: header.vaddr,
        memsz: header.memsz,
        offset: header.offset,
        filesz: header.filesz,
        writable: header.flags & PF_W != 0,
    }
}

/// The segments that have addresses, by ascending address.
///
/// They are sorted at once, since headers may be in any order.
pub(crate) fn kept_segments(alloc: Global, headers: &[Header]) -> Result<Vec<Segment>, AllocError>
    ensures items { IfOk result (λ v. v.items ≡ kept_of headers.now) }
    ensures ascending { IfOk result (λ v. IsAscending v.items) }
    ensures some { IfOk result (λ v.
        (k : ℕ) (d : Segment) → k < length v.items → 0 < (slice_index_or v.items k d).memsz) }
{
    let mut segments = Vec::new(alloc);
    for header in headers {
        if header.kind == PT_LOAD && header.memsz > 0 {
            segments.push(read_segment(*header))?;
        }
    }
    segments.sort_by_key(|segment| segment.vaddr)?;
    Ok(segments)
}

/// Whether two of the segments have an address in common.
///
/// By ascending address it is enough to look at neighbors.
pub(crate) fn neighbors_meet(segments: &[Segment]) -> bool
    requires ascending { IsAscending segments.now }
    requires some { (k : ℕ) (d : Segment) →
        k < length segments.now → 0 < (slice_index_or segments.now k d).memsz }
    ensures { result ≡ any_meet segments.now }
{
    for i in 1..segments.len() {
        let before = segments[i - 1];
        if segments[i].vaddr - before.vaddr < before.memsz {
            return true;
        }
    }
    false
}

/// How many bytes the file lacks of the writable segments.
pub(crate) fn sum_undumped(segments: &[Segment]) -> u64
    requires { AreKeptSegments segments.now }
    ensures { result ≡ lacking segments.now }
{
    let mut total = 0;
    for segment in segments {
        if segment.writable {
            total += segment.memsz - segment.filesz;
        }
    }
    total
}

/// The parts of notes, in the order of the headers.
pub(crate) fn kept_parts(alloc: Global, headers: &[Header]) -> Result<Vec<NotePart>, AllocError>
    ensures { IfOk result (λ v. v.items ≡ map part_of (filter is_note headers.now)) }
{
    let mut parts = Vec::new(alloc);
    for header in headers {
        if header.kind == PT_NOTE {
            parts.push(NotePart {
                offset: header.offset,
                filesz: header.filesz,
            })?;
        }
    }
    Ok(parts)
}
