//! Program headers (System V gABI, elf(5)).

ghost use Rattle.std.specs.Prelude.{◌≡◌, ◌+◌, ◌*◌, ◌^◌, ◌≤◌, ◌<◌, length, IfOk, IfErr, IfSome};
ghost use Rattle.leak_elf.specs.Fields.{e_phoff};
ghost use Rattle.leak_elf.specs.Headers.{header_at, header_count, found_count, headers};

use crate::error::ElfError;
use crate::fields::{u16_at, u32_at, u64_at};
use crate::layout::{
    E_PHNUM, E_PHOFF, E_SHOFF, HEADER_SIZE, P_FILESZ, P_FLAGS, P_MEMSZ, P_OFFSET, P_TYPE, P_VADDR,
    SECTION_HEADER_SIZE, SH_INFO,
};
use std::alloc::Global;

/// The type of a header that describes a segment in memory.
pub(crate) const PT_LOAD: u32 = 1;
/// The type of a header that describes notes.
pub(crate) const PT_NOTE: u32 = 4;

/// The flag of a segment that can be written.
pub(crate) const PF_W: u32 = 2;

/// The type of a core file.
pub(crate) const ET_CORE: u16 = 4;
/// The machine of an x86-64 file.
pub(crate) const EM_X86_64: u16 = 62;
/// The count that says that the number of program headers is in section header 0.
pub(crate) const PN_XNUM: u16 = 0xffff;

/// A program header. Its physical address and its alignment are not read.
#[derive(Clone, Copy)]
pub struct Header {
    /// `p_type`.
    pub kind: u32,
    /// `p_flags`.
    pub flags: u32,
    /// `p_offset`, a file offset.
    pub offset: u64,
    /// `p_vaddr`, an address.
    pub vaddr: u64,
    /// `p_filesz`, in bytes.
    pub filesz: u64,
    /// `p_memsz`, in bytes.
    pub memsz: u64,
}

/// The program header at the file offset.
#[tactic(auto, unfolding(crate::specs::Headers::header_at))]
pub(crate) fn read_header(core: &[u8], at: usize) -> Header
    requires { at + 56 ≤ length core.now }
    ensures { result ≡ header_at core.now at }
{
    Header {
        kind: u32_at(core, at + P_TYPE),
        flags: u32_at(core, at + P_FLAGS),
        offset: u64_at(core, at + P_OFFSET),
        vaddr: u64_at(core, at + P_VADDR),
        filesz: u64_at(core, at + P_FILESZ),
        memsz: u64_at(core, at + P_MEMSZ),
    }
}

/// How many program headers the file has, if that can be read.
///
/// If `e_phnum` is PN_XNUM, the number is `sh_info` of section header 0 (gABI, extended numbering).
/// In all other files `e_shoff` is not looked at.
pub(crate) fn count_headers(core: &[u8]) -> Option<usize>
    requires { 64 ≤ length core.now }
    ensures value { result ≡ found_count core.now }
    ensures size { IfSome result (λ count. count < 2 ^ 32) }
{
    let count = u16_at(core, E_PHNUM);
    if count != PN_XNUM {
        return Some(count as usize);
    }
    let start = u64_at(core, E_SHOFF);
    if start == 0 || start > (core.len() - SECTION_HEADER_SIZE) as u64 {
        return None;
    }
    Some(u32_at(core, start as usize + SH_INFO) as usize)
}

/// All program headers, in the order of the file. The count is how many there are.
#[tactic(auto, unfolding(crate::specs::Headers::headers))]
pub(crate) fn read_headers(
    alloc: Global,
    core: &[u8],
    count: usize,
) -> Result<Vec<Header>, ElfError>
    requires short { 64 ≤ length core.now }
    requires count { count ≡ header_count core.now }
    requires table { e_phoff core.now + 56 * count ≤ length core.now }
    ensures ok { IfOk result (λ v. v.items ≡ headers core.now) }
    ensures refused { IfErr result (λ e. e ≡ ElfError.NoMemory) }
{
    let start = u64_at(core, E_PHOFF) as usize;
    let mut headers = Vec::new(alloc);
    for i in 0..count {
        headers.push(read_header(core, start + HEADER_SIZE * i))?;
    }
    Ok(headers)
}
