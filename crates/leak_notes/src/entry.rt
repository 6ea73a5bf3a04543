//! One entry of the notes (elf(5)).

ghost use Rattle.std.specs.Prelude.{◌≡◌, ◌+◌, ◌<◌, ◌≤◌, ◌^◌, length, IsTrue, IsFalse, ◌↔◌, []};
ghost use Rattle.std.specs.Int.{w32};
ghost use Rattle.leak_elf.specs.Fields.{number_at};
ghost use Rattle.leak_notes.specs.Entry.{name_size, desc_size, kind, padded, name, desc_at, desc, entry_size, following, is_cut, is_core, is_linux, is_status, is_vector, is_state};
ghost use Rattle.leak_notes.specs.Stacks.{is_auxiliary};

use byteorder::{ByteOrder, LittleEndian};
use std::marker::Model;

/// Where the size of the name is, in bytes from the entry's first (elf(5), `Elf64_Nhdr`).
const N_NAMESZ: usize = 0;
/// Where the size of the descriptor is (elf(5), `Elf64_Nhdr`).
const N_DESCSZ: usize = 4;
/// Where the type is (elf(5), `Elf64_Nhdr`).
const N_TYPE: usize = 8;
/// The size in bytes of an entry's three fields.
const FIELDS_SIZE: usize = 12;

/// The type of a thread status.
const NT_PRSTATUS: u32 = 1;

/// The type of a vector entry.
const NT_FPREGSET: u32 = 2;

/// The type of an auxiliary vector.
const NT_AUXV: u32 = 6;

/// The type of a state entry.
const NT_X86_XSTATE: u32 = 0x202;

/// The name of a thread status, of a vector entry and of an auxiliary vector.
const CORE: &[u8] = b"CORE\0";

/// The name of a state entry.
const LINUX: &[u8] = b"LINUX\0";

/// The size with its padding to a multiple of 4 bytes.
fn pad(size: usize) -> usize
    requires { size < 2 ^ 32 }
    ensures { result ≡ padded size }
{
    (size + 3) / 4 * 4
}

/// The number of 32 bits at the place in the bytes.
#[tactic(auto, unfolding(leak_elf::specs::Fields::number_at))]
fn u32_at(bytes: &[u8], at: usize) -> u32
    requires { at + 4 ≤ length bytes.now }
    ensures { result ≡ number_at w32 bytes.now at }
{
    LittleEndian::read_u32(&bytes[at..at + 4])
}

/// An entry, as the bytes of its part from its first byte on.
#[derive(Drop)]
pub(crate) struct Entry<'a> {
    offset: u64,
    bytes: &'a [u8],
}

impl<'a> Model for Entry<'a> {
    ghost Value = { Rattle.leak_notes.specs.Entry.Entry };

    ghost view = { λ e. record { offset = e.offset; bytes = e.bytes.now } };

    ghost invariant = { λ e. e.offset + length e.bytes.now < 2 ^ 64 };
}

impl<'a> Entry<'a> {
    /// The first entry of a part that begins at the offset in the file.
    pub(crate) fn first(offset: u64, part: &'a [u8]) -> Entry<'a>
        requires { offset + length part.now < 2 ^ 64 }
        ensures { result ≡ record { offset = offset; bytes = part.now } }
    {
        Entry {
            offset,
            bytes: part,
        }
    }

    /// Whether the part ends here.
    pub(crate) fn is_end(&self) -> bool
        ensures { IsTrue result ↔ (self.now.bytes ≡ []) }
    {
        self.bytes.is_empty()
    }

    /// The offset in the file of its first byte.
    pub(crate) fn offset(&self) -> u64
        ensures { result ≡ self.now.offset }
    {
        self.offset
    }

    /// The size of its name in bytes, `namesz`.
    fn name_size(&self) -> usize
        requires { 12 ≤ length self.now.bytes }
        ensures value { result ≡ name_size self.now }
        ensures fits { result < 2 ^ 32 }
    {
        u32_at(self.bytes, N_NAMESZ) as usize
    }

    /// The size of its descriptor in bytes, `descsz`.
    pub(crate) fn desc_size(&self) -> usize
        requires { 12 ≤ length self.now.bytes }
        ensures value { result ≡ desc_size self.now }
        ensures fits { result < 2 ^ 32 }
    {
        u32_at(self.bytes, N_DESCSZ) as usize
    }

    /// Where its descriptor begins, counted from its first byte.
    fn desc_at(&self) -> usize
        requires { 12 ≤ length self.now.bytes }
        ensures value { result ≡ desc_at self.now }
        ensures fits { result < 2 ^ 33 }
    {
        FIELDS_SIZE + pad(self.name_size())
    }

    /// Whether its fields, its padded name or its descriptor pass the end of the part.
    pub(crate) fn is_cut(&self) -> bool
        ensures { result ≡ is_cut self.now }
    {
        self.bytes.len() < FIELDS_SIZE || self.bytes.len() < self.desc_at() + self.desc_size()
    }

    /// Its type.
    fn kind(&self) -> u32
        requires { 12 ≤ length self.now.bytes }
        ensures { result ≡ kind self.now }
    {
        u32_at(self.bytes, N_TYPE)
    }

    /// Whether it has the name of Linux's first register sets.
    fn is_core(&self) -> bool
        requires { IsFalse (is_cut self.now) }
        ensures { result ≡ is_core self.now }
    {
        &self.bytes[FIELDS_SIZE..FIELDS_SIZE + self.name_size()] == CORE
    }

    /// Whether it has the name of register sets that Linux added later.
    fn is_linux(&self) -> bool
        requires { IsFalse (is_cut self.now) }
        ensures { result ≡ is_linux self.now }
    {
        &self.bytes[FIELDS_SIZE..FIELDS_SIZE + self.name_size()] == LINUX
    }

    /// Whether it is a thread status.
    pub(crate) fn is_status(&self) -> bool
        requires { IsFalse (is_cut self.now) }
        ensures { result ≡ is_status self.now }
    {
        self.kind() == NT_PRSTATUS && self.is_core()
    }

    /// Whether it is a vector entry.
    pub(crate) fn is_vector(&self) -> bool
        requires { IsFalse (is_cut self.now) }
        ensures { result ≡ is_vector self.now }
    {
        self.kind() == NT_FPREGSET && self.is_core()
    }

    /// Whether it is an auxiliary vector.
    pub(crate) fn is_auxiliary(&self) -> bool
        requires { IsFalse (is_cut self.now) }
        ensures { result ≡ is_auxiliary self.now }
    {
        self.kind() == NT_AUXV && self.is_core()
    }

    /// Whether it is a state entry.
    pub(crate) fn is_state(&self) -> bool
        requires { IsFalse (is_cut self.now) }
        ensures { result ≡ is_state self.now }
    {
        self.kind() == NT_X86_XSTATE && self.is_linux()
    }

    /// Its descriptor.
    pub(crate) fn desc(&self) -> &'a [u8]
        requires { IsFalse (is_cut self.now) }
        ensures { result.now ≡ desc self.now }
    {
        let start = self.desc_at();
        &self.bytes[start..start + self.desc_size()]
    }

    /// The entry after it, or the end of the part. The padding of the last descriptor may be missing.
    pub(crate) fn following(&self) -> Entry<'a>
        requires { IsFalse (is_cut self.now) }
        ensures { result ≡ following self.now }
    {
        let size = (self.desc_at() + pad(self.desc_size())).min(self.bytes.len());
        Entry {
            offset: self.offset + size as u64,
            bytes: &self.bytes[size..],
        }
    }
}
