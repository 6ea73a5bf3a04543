//! The segments of a file of which the head alone is known.

ghost use Rattle.std.specs.Prelude.{◌≡◌, ◌≢◌, ◌+◌, ◌++◌, ℕ, List, length, IfOk, IfErr, OnOk, Some, None};
ghost use Rattle.leak_elf.specs.Head.{IsHead};
ghost use Rattle.leak_elf.specs.Refusals.{fault_of};
ghost use Rattle.leak_elf.specs.Segments.{segments_of, AreKeptSegments};

use crate::error::ElfError;
use crate::header::read_headers;
use crate::refusal::{check_file, check_headers};
use crate::segment::Segment;
use std::alloc::Global;

/// The segments of each file of that length that begins with the head, by ascending address.
///
/// It accepts and rejects what [`Image::passed`](crate::Image::passed) does. While the length is not known, `u64::MAX`
/// leaves only those faults that each file with the head has.
pub fn segments_in(alloc: Global, head: &[u8], len: u64) -> Result<Vec<Segment>, ElfError>
    ghost rest: { List ℕ }
    requires head { IsHead head.now }
    requires len { length head.now + length rest ≡ len }
    ensures segments { IfOk result (λ v. v.items ≡ segments_of (head.now ++ rest)) }
    ensures of_head { IfOk result (λ v. v.items ≡ segments_of head.now) }
    ensures apart { IfOk result (λ v. AreKeptSegments v.items) }
    ensures ok { OnOk result (fault_of (head.now ++ rest) ≡ None) }
    ensures refused { IfErr result (λ e.
        e ≢ ElfError.NoMemory → fault_of (head.now ++ rest) ≡ Some e) }
{
    let count = check_file(head)?;
    let headers = read_headers(alloc, head, count)?;
    check_headers(alloc, len, headers.as_slice())
}
