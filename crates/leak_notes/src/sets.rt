//! The kind of entry that each register word comes from.
ghost use Rattle.std.specs.Prelude.{◌≡◌, ◌++◌, ◌+◌, ◌<◌, ◌^◌, length, IsFalse, OnOk, IfOk};
ghost use Rattle.leak_notes.specs.Entry.{entries_from, is_cut};
ghost use Rattle.leak_notes.specs.Threads.{entries};
ghost use Rattle.leak_notes.specs.Sets.{set_of, sets_of};

use crate::entry::Entry;
use crate::state::state_words;
use leak_elf::{Image, Rest};
use std::alloc::{AllocError, Global};

/// The registers of one entry.
#[derive(Clone, Copy, Debug, PartialEq, Eq)]
pub enum RegisterSet {
    /// The 27 of a thread status, r15 the first.
    Status,
    /// The 48 halves of a vector entry: those of the eight x87 or MMX registers, then those of xmm0 to xmm15, of each the lower
    /// half first.
    Vector,
    /// This many words of a state entry, beginning with the one at byte 576 of its descriptor.
    State(u32),
}

/// The sets that a core's register words come from, in the order of [`Threads::registers`](crate::Threads::registers).
/// An entry that is cut off has none.
pub fn register_sets<R: Rest>(
    alloc: Global,
    image: &Image<'_, R>,
) -> Result<Vec<RegisterSet>, AllocError>
    ensures { IfOk result (λ sets. sets.items ≡ sets_of (entries image.now)) }
{
    let mut sets = Vec::new(alloc);
    for (i, part) in image.note_parts().iter().enumerate() {
        push_sets(&mut sets, part.offset, image.note_bytes(i))?;
    }
    Ok(sets)
}

/// Adds the sets of a part that begins at the offset in the file.
fn push_sets(sets: &mut Vec<RegisterSet>, offset: u64, part: &[u8]) -> Result<(), AllocError>
    requires { offset + length part.now < 2 ^ 64 }
    ensures { OnOk result (sets.new.items ≡ sets.old.items
        ++ sets_of (entries_from (record { offset = offset; bytes = part.now }))) }
{
    let mut entry = Entry::first(offset, part);
    'entries: while !entry.is_end() {
        if entry.is_cut() {
            return Ok(());
        }
        if let Some(set) = set_of(&entry) {
            sets.push(set)?;
        }
        entry = entry.following();
    }
    Ok(())
}

/// The set of an entry that is not cut off, if it has one.
fn set_of(entry: &Entry) -> Option<RegisterSet>
    requires { IsFalse (is_cut entry.now) }
    ensures { result ≡ set_of entry.now }
{
    if entry.is_status() {
        Some(RegisterSet::Status)
    } else if entry.is_vector() {
        Some(RegisterSet::Vector)
    } else if entry.is_state() {
        Some(RegisterSet::State(state_words(entry.desc_size()) as u32))
    } else {
        None
    }
}
