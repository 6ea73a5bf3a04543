//! Words of 8 bytes in a descriptor.

ghost use Rattle.std.specs.Prelude.{◌≡◌, ◌++◌, ◌+◌, ◌*◌, ◌≤◌, length, OnOk};
ghost use Rattle.std.specs.Int.{w64};
ghost use Rattle.leak_elf.specs.Fields.{number_at};
ghost use Rattle.leak_notes.specs.Entry.{words_from};

use byteorder::{ByteOrder, LittleEndian};
use std::alloc::AllocError;

/// The number of 64 bits at the place in the bytes.
#[tactic(auto, unfolding(leak_elf::specs::Fields::number_at))]
pub(crate) fn u64_at(bytes: &[u8], at: usize) -> u64
    requires { at + 8 ≤ length bytes.now }
    ensures { result ≡ number_at w64 bytes.now at }
{
    LittleEndian::read_u64(&bytes[at..at + 8])
}

/// Appends this many words of the bytes, from the place on, to the words.
pub(crate) fn push_words(
    words: &mut Vec<u64>,
    bytes: &[u8],
    at: usize,
    count: usize,
) -> Result<(), AllocError>
    requires { at + 8 * count ≤ length bytes.now }
    ensures ok { OnOk result (words.new.items ≡ words.old.items ++ words_from bytes.now at count) }
    ensures kept { length words.old.items ≤ length words.new.items }
{
    for i in 0..count {
        words.push(u64_at(bytes, at + 8 * i))?;
    }
    Ok(())
}
