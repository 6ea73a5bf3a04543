//! Numbers and bytes in the file. All numbers are little-endian.

ghost use Rattle.std.specs.Prelude.{◌≡◌, ◌+◌, ◌^◌, ◌<◌, ◌≤◌, length};
ghost use Rattle.std.specs.Int.{w16, w32, w64};
ghost use Rattle.leak_elf.specs.Fields.{number_at};
ghost use Rattle.leak_elf.specs.Segments.{bytes_at};

use byteorder::{ByteOrder, LittleEndian};

/// The number of 16 bits at the file offset.
#[tactic(auto, unfolding(crate::specs::Fields::number_at))]
pub(crate) fn u16_at(bytes: &[u8], at: usize) -> u16
    requires { at + 2 ≤ length bytes.now }
    ensures { result ≡ number_at w16 bytes.now at }
{
    LittleEndian::read_u16(&bytes[at..at + 2])
}

/// The number of 32 bits at the file offset.
#[tactic(auto, unfolding(crate::specs::Fields::number_at))]
pub(crate) fn u32_at(bytes: &[u8], at: usize) -> u32
    requires { at + 4 ≤ length bytes.now }
    ensures { result ≡ number_at w32 bytes.now at }
{
    LittleEndian::read_u32(&bytes[at..at + 4])
}

/// The number of 64 bits at the file offset.
#[tactic(auto, unfolding(crate::specs::Fields::number_at))]
pub(crate) fn u64_at(bytes: &[u8], at: usize) -> u64
    requires { at + 8 ≤ length bytes.now }
    ensures { result ≡ number_at w64 bytes.now at }
{
    LittleEndian::read_u64(&bytes[at..at + 8])
}

/// The bytes of the file from the offset on. If there are none, the offset may lie past its end.
pub(crate) fn bytes_from(core: &[u8], offset: u64, filesz: u64) -> &[u8]
    requires { 0 < filesz → offset + filesz ≤ length core.now }
    ensures bytes { result.now ≡ bytes_at core.now offset filesz }
    ensures end { offset + length result.now < 2 ^ 64 }
{
    if filesz == 0 {
        return &[];
    }
    &core[offset as usize..(offset + filesz) as usize]
}
