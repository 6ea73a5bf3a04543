//! What notes say of the stacks of threads.
ghost use Rattle.std.specs.Prelude.{◌≡◌, ◌++◌, ◌+◌, ◌<◌, ◌^◌, length, IsFalse, OnOk, IfOk, filter_map, None};
ghost use Rattle.leak_notes.specs.Entry.{entries_from, is_cut, is_core, kind};
ghost use Rattle.leak_notes.specs.Threads.{entries};
ghost use Rattle.leak_notes.specs.Stacks.{registers_in, stack_registers_of, threads_in, random_in, random_of_entry, random_of, is_auxiliary, first_said};

use crate::entry::Entry;
use crate::status::STATUS_SIZE;
use crate::words::u64_at;
use leak_elf::{Image, Rest};
use std::alloc::{AllocError, Global};

/// Where orig_rax is in a thread status, in bytes from its first.
const ORIG_RAX_AT: usize = 232;
/// Where rsp is.
const RSP_AT: usize = 264;
/// Where fs_base is.
const FS_BASE_AT: usize = 280;

/// The size in bytes of a pair of an auxiliary vector.
const PAIR_SIZE: usize = 16;
/// The type of the pair whose value is the address of 16 random bytes, which the kernel puts above the first stack
/// (getauxval(3)).
const AT_RANDOM: u64 = 25;

/// The registers of a thread that tell of its stack.
#[derive(Clone, Copy, Debug, PartialEq, Eq)]
pub struct StackRegisters {
    /// rsp, the stack pointer.
    pub sp: u64,
    /// fs_base: the address of the thread's own record, which glibc and musl keep there.
    pub fs_base: u64,
    /// orig_rax: the number of the system call that the thread is in, or 2^63 and more if it is in none.
    pub call: u64,
}

/// The registers that tell of stacks, of each thread status in the order of the notes.
pub fn stack_registers<R: Rest>(
    alloc: Global,
    image: &Image<'_, R>,
) -> Result<Vec<StackRegisters>, AllocError>
    ensures { IfOk result (λ threads. threads.items ≡ threads_in image.now) }
{
    let mut threads = Vec::new(alloc);
    for (i, part) in image.note_parts().iter().enumerate() {
        push_threads(&mut threads, part.offset, image.note_bytes(i))?;
    }
    Ok(threads)
}

/// Adds those of a part that begins at the offset in the file.
fn push_threads(
    threads: &mut Vec<StackRegisters>,
    offset: u64,
    part: &[u8],
) -> Result<(), AllocError>
    requires { offset + length part.now < 2 ^ 64 }
    ensures { OnOk result (threads.new.items ≡ threads.old.items
        ++ filter_map stack_registers_of (entries_from (record { offset = offset; bytes = part.now }))) }
{
    let mut entry = Entry::first(offset, part);
    'entries: while !entry.is_end() {
        if entry.is_cut() {
            return Ok(());
        }
        if let Some(registers) = stack_registers_of(&entry) {
            threads.push(registers)?;
        }
        entry = entry.following();
    }
    Ok(())
}

/// Those of an entry that is not cut off, if it is a thread status.
fn stack_registers_of(entry: &Entry) -> Option<StackRegisters>
    requires { IsFalse (is_cut entry.now) }
    ensures { result ≡ stack_registers_of entry.now }
{
    if entry.is_status() && entry.desc_size() == STATUS_SIZE {
        Some(registers_in(entry.desc()))
    } else {
        None
    }
}

/// Those of a thread status.
fn registers_in(status: &[u8]) -> StackRegisters
    requires { length status.now ≡ 336 }
    ensures { result ≡ registers_in status.now }
{
    StackRegisters {
        sp: u64_at(status, RSP_AT),
        fs_base: u64_at(status, FS_BASE_AT),
        call: u64_at(status, ORIG_RAX_AT),
    }
}

/// The address AT_RANDOM: the value of the first pair of its type in the first auxiliary vector, if it has one.
pub fn random_address<R: Rest>(
    alloc: Global,
    image: &Image<'_, R>,
) -> Result<Option<u64>, AllocError>
    ensures { IfOk result (λ address. address ≡ random_of image.now) }
{
    let mut said = Vec::new(alloc);
    for (i, part) in image.note_parts().iter().enumerate() {
        push_said(&mut said, part.offset, image.note_bytes(i))?;
    }
    Ok(first_said(&said))
}

/// What the first of them says.
fn first_said(said: &[Option<u64>]) -> Option<u64>
    ensures { result ≡ first_said said.now }
{
    match said.first() {
        Some(first) => *first,
        None => None,
    }
}

/// Adds what each auxiliary vector of a part says of AT_RANDOM.
fn push_said(said: &mut Vec<Option<u64>>, offset: u64, part: &[u8]) -> Result<(), AllocError>
    requires { offset + length part.now < 2 ^ 64 }
    ensures { OnOk result (said.new.items ≡ said.old.items
        ++ filter_map random_of_entry (entries_from (record { offset = offset; bytes = part.now }))) }
{
    let mut entry = Entry::first(offset, part);
    'entries: while !entry.is_end() {
        if entry.is_cut() {
            return Ok(());
        }
        if entry.is_auxiliary() {
            said.push(random_in(entry.desc()))?;
        }
        entry = entry.following();
    }
    Ok(())
}

/// The value of the first pair of an auxiliary vector whose type is AT_RANDOM's.
fn random_in(vector: &[u8]) -> Option<u64>
    ensures { result ≡ random_in vector.now }
{
    for k in 0..vector.len() / PAIR_SIZE {
        if u64_at(vector, PAIR_SIZE * k) == AT_RANDOM {
            return Some(u64_at(vector, PAIR_SIZE * k + 8));
        }
    }
    None
}
