//! Which files are accepted as cores.

ghost use Rattle.std.specs.Prelude.{◌≡◌, ◌≢◌, ◌+◌, ◌*◌, ◌≤◌, ℕ, List, length, take, IfOk, IfErr, OnOk, [], false, true, Some, None};
ghost use Rattle.leak_elf.specs.Fields.{e_phoff};
ghost use Rattle.leak_elf.specs.Headers.{header_count};
ghost use Rattle.leak_elf.specs.Refusals.{file_fault, extent_fault, faults_from, IsMeetingBefore};
ghost use Rattle.leak_elf.specs.Segments.{kept_of, meet_within};

use crate::error::ElfError;
use crate::fields::{u16_at, u64_at};
use crate::header::{EM_X86_64, ET_CORE, Header, PT_LOAD, PT_NOTE, count_headers};
use crate::layout::{
    E_MACHINE, E_PHENTSIZE, E_PHOFF, E_TYPE, EI_CLASS, EI_DATA, EI_VERSION, ELFCLASS64,
    ELFDATA2LSB, ELFMAG, EV_CURRENT, FILE_HEADER_SIZE, HEADER_SIZE,
};
use crate::segment::{Segment, kept_segments, neighbors_meet};
use std::alloc::{AllocError, Global};

/// Checks the file header, and gives the number of program headers.
#[tactic(auto, unfolding(crate::specs::Refusals::file_fault))]
pub(crate) fn check_file(core: &[u8]) -> Result<usize, ElfError>
    ensures ok { OnOk result (file_fault core.now ≡ None) }
    ensures refused { IfErr result (λ e. file_fault core.now ≡ Some e) }
    ensures length { OnOk result (64 ≤ length core.now) }
    ensures count { IfOk result (λ count. count ≡ header_count core.now) }
    ensures table { IfOk result (λ count. e_phoff core.now + 56 * count ≤ length core.now) }
{
    if core.len() < FILE_HEADER_SIZE {
        return Err(ElfError::Short);
    }
    if &core[..ELFMAG.len()] != ELFMAG {
        return Err(ElfError::Magic);
    }
    if core[EI_CLASS] != ELFCLASS64 {
        return Err(ElfError::Class);
    }
    if core[EI_DATA] != ELFDATA2LSB {
        return Err(ElfError::Data);
    }
    if core[EI_VERSION] != EV_CURRENT {
        return Err(ElfError::Version);
    }
    if u16_at(core, E_TYPE) != ET_CORE {
        return Err(ElfError::Kind);
    }
    if u16_at(core, E_MACHINE) != EM_X86_64 {
        return Err(ElfError::Machine);
    }
    if u16_at(core, E_PHENTSIZE) as usize != HEADER_SIZE {
        return Err(ElfError::EntrySize);
    }
    let Some(count) = count_headers(core) else {
        return Err(ElfError::Extended);
    };
    let table = HEADER_SIZE * count;
    if core.len() < table || ((core.len() - table) as u64) < u64_at(core, E_PHOFF) {
        return Err(ElfError::TableCut);
    }
    Ok(count)
}

/// Checks one program header by itself, in a file of that length.
#[tactic(auto, unfolding(crate::specs::Refusals::extent_fault))]
fn check_extent(len: u64, i: usize, header: Header) -> Result<(), ElfError>
    ghost file: { List ℕ }
    requires { len ≡ length file }
    ensures ok { OnOk result (extent_fault file i header ≡ None) }
    ensures refused { IfErr result (λ e. extent_fault file i header ≡ Some e) }
{
    let is_load = header.kind == PT_LOAD;
    let end = header.offset as u128 + header.filesz as u128;
    if (is_load || header.kind == PT_NOTE) && header.filesz > 0 && end > len as u128 {
        return Err(ElfError::Truncated(i));
    }
    if !is_load {
        return Ok(());
    }
    if header.filesz > header.memsz {
        return Err(ElfError::SizeOrder(i));
    }
    if header.memsz > u64::MAX - header.vaddr {
        return Err(ElfError::Wrap(i));
    }
    Ok(())
}

/// Whether two segments of the first headers have an address in common.
#[tactic(auto, unfolding(crate::specs::Segments::meet_within))]
fn meet(alloc: Global, headers: &[Header], count: usize) -> Result<bool, AllocError>
    requires { count ≤ length headers.now }
    ensures { IfOk result (λ b. b ≡ meet_within headers.now count) }
{
    let segments = kept_segments(alloc, &headers[..count])?;
    Ok(neighbors_meet(segments.as_slice()))
}

/// The first header that has an address in common with an earlier one.
///
/// Each test sorts the segments anew, so the first overlap is found by halving the headers.
fn first_overlap(alloc: Global, headers: &[Header], count: usize) -> Result<usize, AllocError>
    requires bound { count ≤ length headers.now }
    requires meet { meet_within headers.now count ≡ true }
    ensures { IfOk result (λ i. IsMeetingBefore headers.now count (ElfError.Overlap i)) }
{
    let mut apart = 0;
    let mut met = count;
    while met - apart > 1 {
        let middle = apart + (met - apart) / 2;
        if meet(alloc, headers, middle)? {
            met = middle;
        } else {
            apart = middle;
        }
    }
    Ok(apart)
}

/// The segments of the first headers by ascending address, or the first overlap of two.
///
/// A core without overlaps, which is the usual one, is sorted once.
#[tactic(auto, unfolding(crate::specs::Segments::meet_within))]
fn apart_segments(alloc: Global, headers: &[Header], count: usize) -> Result<Vec<Segment>, ElfError>
    requires { count ≤ length headers.now }
    ensures items { IfOk result (λ v. v.items ≡ kept_of (take count headers.now)) }
    ensures ok { OnOk result (meet_within headers.now count ≡ false) }
    ensures refused { IfErr result (λ e.
        e ≢ ElfError.NoMemory → IsMeetingBefore headers.now count e) }
{
    let segments = kept_segments(alloc, &headers[..count])?;
    if neighbors_meet(segments.as_slice()) {
        return Err(ElfError::Overlap(first_overlap(alloc, headers, count)?));
    }
    Ok(segments)
}

/// Checks all program headers of a file of that length, in their order, and gives their segments by ascending address.
pub(crate) fn check_headers(
    alloc: Global,
    len: u64,
    headers: &[Header],
) -> Result<Vec<Segment>, ElfError>
    ghost file: { List ℕ }
    requires { len ≡ length file }
    ensures items { IfOk result (λ v. v.items ≡ kept_of headers.now) }
    ensures ok { OnOk result (faults_from file [] 0 headers.now ≡ None) }
    ensures refused { IfErr result (λ e.
        e ≢ ElfError.NoMemory → faults_from file [] 0 headers.now ≡ Some e) }
{
    for (i, header) in headers.iter().enumerate() {
        if let Err(error) = check_extent(len, i, *header) {
            apart_segments(alloc, headers, i)?;
            return Err(error);
        }
    }
    apart_segments(alloc, headers, headers.len())
}
