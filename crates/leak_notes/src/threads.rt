//! The threads of a core.

ghost use Rattle.std.specs.Prelude.{◌≡◌, ◌≢◌, ◌+◌, ◌*◌, ◌∷◌, [], ◌<◌, ◌≤◌, ◌^◌, length, Some, None, IsFalse, OnOk, IfOk, IfErr};
ghost use Rattle.leak_notes.specs.Entry.{entries_from, is_cut};
ghost use Rattle.leak_notes.specs.Threads.{Registers, TakesUp, first_fault_among, note_fault_of, threads_of};

use crate::entry::Entry;
use crate::error::NoteError;
use crate::state::push_state;
use crate::status::{STATUS_SIZE, push_registers};
use crate::vector::{VECTOR_SIZE, push_vectors};
use leak_elf::{Image, Rest};
use std::alloc::Global;
use std::marker::Model;

/// The threads of a core, by their registers.
#[derive(Drop)]
pub struct Threads {
    words: Vec<u64>,
    count: usize,
}

impl Model for Threads {
    ghost Value = { Registers };

    ghost view = { λ threads. record { registers = threads.words.items; threads = threads.count } };

    ghost invariant = { λ threads. 27 * threads.count ≤ length threads.words.items };
}

impl Threads {
    /// Takes an entry: refuses it, or adds what it has to the threads.
    fn take_entry(&mut self, entry: &Entry) -> Result<(), NoteError>
        ensures ok { OnOk result (TakesUp self.old self.new (entry.now ∷ [])) }
        ensures whole { OnOk result (IsFalse (is_cut entry.now)) }
        ensures refused { IfErr result (λ e.
            e ≢ NoteError.NoMemory → first_fault_among (entry.now ∷ []) ≡ Some e) }
    {
        if entry.is_cut() {
            return Err(NoteError::Cut(entry.offset()));
        }
        if entry.is_status() {
            if entry.desc_size() != STATUS_SIZE {
                return Err(NoteError::StatusSize(entry.offset()));
            }
            push_registers(&mut self.words, entry.desc())?;
            self.count += 1;
        } else if entry.is_vector() {
            if entry.desc_size() != VECTOR_SIZE {
                return Err(NoteError::VectorSize(entry.offset()));
            }
            push_vectors(&mut self.words, entry.desc())?;
        } else if entry.is_state() {
            push_state(&mut self.words, entry.desc())?;
        }
        Ok(())
    }

    /// Takes the entries of a part that begins at the offset in the file.
    fn take_part(&mut self, offset: u64, part: &[u8]) -> Result<(), NoteError>
        requires { offset + length part.now < 2 ^ 64 }
        ensures ok { OnOk result (TakesUp self.old self.new
            (entries_from (record { offset = offset; bytes = part.now }))) }
        ensures refused { IfErr result (λ e.
            e ≢ NoteError.NoMemory →
            first_fault_among (entries_from (record { offset = offset; bytes = part.now }))
            ≡ Some e) }
    {
        let mut entry = Entry::first(offset, part);
        while !entry.is_end() {
            self.take_entry(&entry)?;
            entry = entry.following();
        }
        Ok(())
    }

    /// Reads the notes of a core, or gives the first reason against them.
    pub fn read<R: Rest>(alloc: Global, image: &Image<'_, R>) -> Result<Threads, NoteError>
        ensures ok { IfOk result (λ t.
            (t ≡ threads_of image.now) × (note_fault_of image.now ≡ None)) }
        ensures refused { IfErr result (λ e.
            e ≢ NoteError.NoMemory → note_fault_of image.now ≡ Some e) }
    {
        let mut threads = Threads {
            words: Vec::new(alloc),
            count: 0,
        };
        for (i, part) in image.note_parts().iter().enumerate() {
            threads.take_part(part.offset, image.note_bytes(i))?;
        }
        if threads.count == 0 {
            return Err(NoteError::NoThread);
        }
        Ok(threads)
    }

    /// How many threads there are. It is for libraries and tests.
    pub fn count(&self) -> usize
        ensures { result ≡ self.now.threads }
    {
        self.count
    }

    /// The register words: 27 a thread status, 48 a vector entry, and of a state entry those from byte 576 on, in the order of the
    /// notes.
    pub fn registers(&self) -> &[u64]
        ensures { result.now ≡ self.now.registers }
    {
        self.words.as_slice()
    }
}
