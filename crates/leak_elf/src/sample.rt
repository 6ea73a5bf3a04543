//! A sample core: one thread, whose registers are zero, and one writable segment of zero bytes.

ghost use Rattle.std.specs.Prelude.{◌≡◌, ◌≤◌, ◌+◌, ◌++◌, length, All, IfOk, OnOk};
ghost use Rattle.std.specs.Int.{w64, to_le_bytes};
ghost use Rattle.leak_elf.specs.Sample.{patched, with_words, zeros, file_header, program_header, note_entry, sample, sample_with, IsSampleAddress};

use crate::header::{EM_X86_64, ET_CORE, Header, PT_LOAD, PT_NOTE};
use crate::layout::{ELFCLASS64, ELFDATA2LSB, ELFMAG, EV_CURRENT, FILE_HEADER_SIZE, HEADER_SIZE};
use std::alloc::{AllocError, Global};

/// The address of a word of the segment, less its file offset.
const SHIFT: u64 = 0xf000;

/// A core file of one thread and one writable segment, with the words set, each as an address and
/// the word there. The segment has the addresses from 0x10000 up to 0x11000, the last excluded.
///
/// Of two words at one address the later is set. All other bytes of the segment and all registers
/// are zero. It is for tests and for a first look at the program.
#[tactic(auto, unfolding(crate::specs::Sample::sample_with))]
pub fn core_k(alloc: Global, words: &[(u64, u64)]) -> Result<Vec<u8>, AllocError>
    requires { All (λ word. IsSampleAddress word.0) words.now }
    ensures { IfOk result (λ core. core.items ≡ sample_with words.now) }
{
    let mut core = zero_core(alloc)?;
    set_words(core.as_mut_slice(), words);
    Ok(core)
}

/// Sets the words one after another.
fn set_words(core: &mut [u8], words: &[(u64, u64)])
    requires size { 8192 ≤ length core.old }
    requires places { All (λ word. IsSampleAddress word.0) words.now }
    ensures { core.new ≡ with_words core.old words.now }
{
    for (addr, word) in words {
        set_word(core, (*addr - SHIFT) as usize, *word);
    }
}

/// Sets the word at the file offset.
fn set_word(core: &mut [u8], at: usize, word: u64)
    requires { at + 8 ≤ length core.old }
    ensures { core.new ≡ patched core.old at (to_le_bytes w64 word) }
{
    core[at..at + 8].copy_from_slice(&word.to_le_bytes());
}

/// The sample core with all words zero.
#[tactic(auto, unfolding(crate::specs::Sample::sample, crate::specs::Sample::front))]
fn zero_core(alloc: Global) -> Result<Vec<u8>, AllocError>
    ensures { IfOk result (λ core. core.items ≡ sample) }
{
    let notes = Header {
        kind: PT_NOTE,
        flags: 0,
        offset: 176,
        vaddr: 0,
        filesz: 356,
        memsz: 0,
    };
    let segment = Header {
        kind: PT_LOAD,
        flags: 6,
        offset: 4096,
        vaddr: 0x10000,
        filesz: 4096,
        memsz: 4096,
    };
    let mut core = Vec::new(alloc);
    push_file_header(&mut core, 2)?;
    push_header(&mut core, notes, 4)?;
    push_header(&mut core, segment, 4096)?;
    push_note(&mut core)?;
    push_zeros(&mut core, 3564)?;
    push_zeros(&mut core, 4096)?;
    Ok(core)
}

/// Appends the file header of a core with this many program headers, which follow it.
#[tactic(auto, unfolding(crate::specs::Sample::file_header))]
fn push_file_header(core: &mut Vec<u8>, count: u16) -> Result<(), AllocError>
    ensures { OnOk result (core.new.items ≡ core.old.items ++ file_header count) }
{
    push(core, ELFMAG)?;
    push(core, &[ELFCLASS64, ELFDATA2LSB, EV_CURRENT])?;
    push_zeros(core, 9)?;
    push(core, &ET_CORE.to_le_bytes())?;
    push(core, &EM_X86_64.to_le_bytes())?;
    push(core, &(EV_CURRENT as u32).to_le_bytes())?;
    push_zeros(core, 8)?;
    push(core, &(FILE_HEADER_SIZE as u64).to_le_bytes())?;
    push_zeros(core, 12)?;
    push(core, &(FILE_HEADER_SIZE as u16).to_le_bytes())?;
    push(core, &(HEADER_SIZE as u16).to_le_bytes())?;
    push(core, &count.to_le_bytes())?;
    push_zeros(core, 6)
}

/// Appends a program header.
#[tactic(auto, unfolding(crate::specs::Sample::program_header))]
fn push_header(core: &mut Vec<u8>, header: Header, align: u64) -> Result<(), AllocError>
    ensures { OnOk result (core.new.items ≡ core.old.items
        ++ program_header header.kind header.flags header.offset header.vaddr header.filesz
        header.memsz align) }
{
    push(core, &header.kind.to_le_bytes())?;
    push(core, &header.flags.to_le_bytes())?;
    push(core, &header.offset.to_le_bytes())?;
    push(core, &header.vaddr.to_le_bytes())?;
    push(core, &0u64.to_le_bytes())?;
    push(core, &header.filesz.to_le_bytes())?;
    push(core, &header.memsz.to_le_bytes())?;
    push(core, &align.to_le_bytes())?;
    Ok(())
}

/// Appends the thread status.
#[tactic(auto, unfolding(crate::specs::Sample::note_entry))]
fn push_note(core: &mut Vec<u8>) -> Result<(), AllocError>
    ensures { OnOk result (core.new.items ≡ core.old.items ++ note_entry) }
{
    push(core, &5u32.to_le_bytes())?;
    push(core, &336u32.to_le_bytes())?;
    push(core, &1u32.to_le_bytes())?;
    push(core, &[0x43, 0x4f, 0x52, 0x45])?;
    push_zeros(core, 4)?;
    push_zeros(core, 336)?;
    Ok(())
}

/// Appends zero bytes.
#[tactic(auto, unfolding(crate::specs::Sample::zeros))]
fn push_zeros(core: &mut Vec<u8>, count: usize) -> Result<(), AllocError>
    requires { count ≤ 4096 }
    ensures { OnOk result (core.new.items ≡ core.old.items ++ zeros count) }
{
    core.resize(core.len() + count, 0)
}

/// Appends the bytes.
fn push(core: &mut Vec<u8>, bytes: &[u8]) -> Result<(), AllocError>
    ensures { OnOk result (core.new.items ≡ core.old.items ++ bytes.now) }
{
    core.extend_from_slice(bytes)
}
