//! How long the head of a core file is, by the file's first bytes.

ghost use Rattle.std.specs.Prelude.{◌≡◌, ◌≤◌, ◌<◌, ◌+◌, ◌*◌, ◌^◌, length};
ghost use Rattle.std.specs.List.{list_any};
ghost use Rattle.leak_elf.specs.Fields.{e_phoff};
ghost use Rattle.leak_elf.specs.Headers.{header_count, headers};
ghost use Rattle.leak_elf.specs.HeadLength.{Tells, IsAtLeast, section_end, note_end, IsNotesEnd, is_unfit};

use crate::fields::{u16_at, u64_at};
use crate::header::{Header, PN_XNUM, PT_LOAD, PT_NOTE, count_headers, read_header};
use crate::layout::{
    E_PHNUM, E_PHOFF, E_SHOFF, FILE_HEADER_SIZE, HEADER_SIZE, SECTION_HEADER_SIZE,
};

/// What the first bytes of a file say of its head: the bytes up to the end of its headers and notes.
#[derive(Clone, Copy, Debug, PartialEq, Eq)]
pub enum Head {
    /// The head has at least this many bytes, which is more than there are.
    Needs(u64),
    /// The shortest head has this many bytes, a multiple of 8, and none of them is dumped memory.
    Length(u64),
    /// There is no such head: dumped memory comes before the end of a header or of notes, words are not at multiples
    /// of 8 of the file, section header 0 is missing, or a part would end past 2^64.
    Absent,
}

/// Says how long the head is of a file that begins with the bytes.
pub fn head_of(bytes: &[u8]) -> Head
    ensures { Tells bytes.now result }
{
    let len = bytes.len() as u128;
    if bytes.len() < FILE_HEADER_SIZE {
        return needs(bytes, FILE_HEADER_SIZE as u128);
    }
    let section = section_end(bytes);
    if section > len {
        return needs(bytes, section);
    }
    let Some(count) = count_headers(bytes) else {
        return Head::Absent;
    };
    let table = u64_at(bytes, E_PHOFF) as u128 + (HEADER_SIZE * count) as u128;
    if table > len {
        return needs(bytes, table);
    }
    let end = notes_end(bytes, count, section.max(table));
    let head = (end + 7) / 8 * 8;
    if head >= 1 << 64 || are_unfit(bytes, count, head as u64) {
        return Head::Absent;
    }
    Head::Length(head as u64)
}

/// What is said if the head has at least this many bytes, which is more than there are.
fn needs(bytes: &[u8], least: u128) -> Head
    requires { IsAtLeast bytes.now least }
    ensures { Tells bytes.now result }
{
    if least < 1 << 64 {
        Head::Needs(least as u64)
    } else {
        Head::Absent
    }
}

/// Where section header 0 ends if it has the number of program headers, else where the file header ends.
fn section_end(bytes: &[u8]) -> u128
    requires { 64 ≤ length bytes.now }
    ensures value { result ≡ section_end bytes.now }
    ensures bound { result < 2 ^ 65 }
{
    if u16_at(bytes, E_PHNUM) == PN_XNUM {
        u64_at(bytes, E_SHOFF) as u128 + SECTION_HEADER_SIZE as u128
    } else {
        FILE_HEADER_SIZE as u128
    }
}

/// The least offset from `from` on behind which no part of notes ends.
fn notes_end(bytes: &[u8], count: usize, from: u128) -> u128
    requires short { 64 ≤ length bytes.now }
    requires count { count ≡ header_count bytes.now }
    requires table { e_phoff bytes.now + 56 * count ≤ length bytes.now }
    requires from { from < 2 ^ 66 }
    ensures value { IsNotesEnd (headers bytes.now) from result }
    ensures bound { result < 2 ^ 66 }
{
    let start = u64_at(bytes, E_PHOFF) as usize;
    let mut end = from;
    for i in 0..count {
        end = end.max(note_end(read_header(bytes, start + HEADER_SIZE * i)));
    }
    end
}

/// Where the header's part of notes ends, or 0 if it has no bytes or describes no notes.
fn note_end(header: Header) -> u128
    ensures value { result ≡ note_end header }
    ensures bound { result < 2 ^ 65 }
{
    if header.kind == PT_NOTE && header.filesz > 0 {
        header.offset as u128 + header.filesz as u128
    } else {
        0
    }
}

/// Whether words of the header's segment begin before the offset, or aren't at multiples of 8 of the file.
fn is_unfit(header: Header, head: u64) -> bool
    ensures { result ≡ is_unfit head header }
{
    header.kind == PT_LOAD
        && header.memsz > 0
        && header.filesz > 0
        && (header.offset < head || header.offset % 8 != header.vaddr % 8)
}

/// Whether that is so of one of the program headers.
fn are_unfit(bytes: &[u8], count: usize, head: u64) -> bool
    requires short { 64 ≤ length bytes.now }
    requires count { count ≡ header_count bytes.now }
    requires table { e_phoff bytes.now + 56 * count ≤ length bytes.now }
    ensures { result ≡ list_any (is_unfit head) (headers bytes.now) }
{
    let start = u64_at(bytes, E_PHOFF) as usize;
    for i in 0..count {
        if is_unfit(read_header(bytes, start + HEADER_SIZE * i), head) {
            return true;
        }
    }
    false
}
