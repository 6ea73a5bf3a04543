//! Bytes of a core file that are sifted as they pass.
ghost use Rattle.std.specs.Prelude.{◌≡◌, [], ◌+◌, ◌-◌, ◌%◌, ◌^◌, ◌<◌, ℕ, List, length, OnErr, OnOk};
ghost use Rattle.leak_elf.specs.Segments.{AreKeptSegments};
ghost use Rattle.leak_sift.specs.Places.{AreOrderly};
ghost use Rattle.leak_sift.specs.Sifted.{HasTaken, Takes, TakesSome, end_of};

use crate::appending::append_words;
use crate::places::Places;
use crate::sieve::Sieve;
use crate::threads::{LEAST, Mesh, sift_parts};
use crate::waiting::Waiting;
use leak_elf::Segment;
use leak_sparse::SparseWords;
use leak_team::Team;
use std::alloc::{AllocError, Global};
use std::marker::Model;
use std::thread::Threads;

/// Takes the bytes of a core file in order, in pieces of any length. Of each 8 bytes it keeps the word, or 0.
#[derive(Drop)]
pub struct Sifting<'a> {
    places: Places<'a>,
    sieve: Sieve<'a>,
    head: u64,
    words: SparseWords,
    waiting: Waiting,
}

impl<'a> Model for Sifting<'a> {
    ghost use Rattle.leak_sift.specs.Sifted.{IsWithin, Sifted};

    ghost Value = { Sifted };

    ghost view = { λ sifting. record {
      rule = sifting.sieve;
      segments = sifting.places;
      head = sifting.head;
      words = sifting.words;
      waiting = sifting.waiting;
    } };

    ghost invariant = { λ sifting. IsWithin sifting.head sifting.words sifting.waiting };
}

impl<'a> Sifting<'a> {
    /// Begins at the file offset `head`. The segments are those of the file, by ascending address.
    pub fn new(alloc: Global, segments: &'a [Segment], head: u64, sieve: Sieve<'a>) -> Sifting<'a>
        requires kept { AreKeptSegments segments.now }
        requires orderly { AreOrderly segments.now }
        ensures { result ≡ record {
          rule = sieve.entry;
          segments = segments.now;
          head = head;
          words = [];
          waiting = [];
        } }
    {
        Sifting {
            places: Places::new(segments),
            sieve,
            head,
            words: SparseWords::new(alloc),
            waiting: Waiting::new(),
        }
    }

    /// Makes room for so many words more, of which so many are kept. That changes only memory and time.
    pub fn reserve(&mut self, count: usize, kept: usize) -> Result<(), AllocError>
        ensures { self.new ≡ self.old }
    {
        self.words.reserve(count, kept)
    }

    /// Takes the next bytes, by the team if they are many. Those after the last complete word wait for the rest of it.
    ///
    /// An error is an allocation that failed, or an offset past 64 bits. Some of the bytes were taken then. Threads that
    /// can't be had are no error: the caller does their share.
    pub fn take<T: Threads + Sync>(
        &mut self,
        team: &Team<'_, T>,
        bytes: &[u8],
    ) -> Result<(), AllocError>
        ensures ok { OnOk result (Takes self.old bytes.now self.new) }
        ensures err { OnErr result (TakesSome self.old bytes.now self.new) }
    {
        if bytes.len() as u64 > u64::MAX - self.end() {
            return Err(AllocError);
        }
        let missing = self.missing();
        if bytes.len() < missing {
            self.wait(bytes);
            return Ok(());
        }
        let (first, rest) = bytes.split_at(missing);
        if missing > 0 {
            self.complete(first)?;
        }
        let (whole, others) = rest.split_at(rest.len() / 8 * 8);
        self.append_by(team, whole)?;
        self.wait(others);
        Ok(())
    }

    /// The words, and how many bytes were taken. Bytes that still wait give no word.
    pub fn finish(self) -> (SparseWords, u64)
        ensures words { result.0 ≡ self.entry.words }
        ensures bytes { (bytes : List ℕ) → HasTaken self.entry bytes → result.1 ≡ length bytes }
    {
        let Sifting {
            places: _,
            sieve: _,
            head: _,
            words,
            waiting,
        } = self;
        let bytes = 8 * words.len() as u64 + waiting.len() as u64;
        (words, bytes)
    }

    /// The file offset of the next byte.
    fn end(&self) -> u64
        ensures { result ≡ end_of self.now }
    {
        self.head + 8 * self.words.len() as u64 + self.waiting.len() as u64
    }

    /// How many bytes complete the word whose first bytes wait. If none waits, 0.
    fn missing(&self) -> usize
        ensures value { result ≡ (8 - length self.now.waiting) % 8 }
        ensures few { length self.now.waiting < 8 }
    {
        let _ = &self.words;
        (8 - self.waiting.len()) % 8
    }

    /// Lets bytes wait that don't complete the word.
    fn wait(&mut self, bytes: &[u8])
        requires few { length self.old.waiting + length bytes.now < 8 }
        requires fits { end_of self.old + length bytes.now < 2 ^ 64 }
        ensures { Takes self.old bytes.now self.new }
    {
        self.waiting.add(bytes);
    }

    /// Takes the bytes that complete the word.
    fn complete(&mut self, bytes: &[u8]) -> Result<(), AllocError>
        requires all { length self.old.waiting + length bytes.now ≡ 8 }
        requires fits { end_of self.old + length bytes.now < 2 ^ 64 }
        ensures ok { OnOk result (Takes self.old bytes.now self.new) }
        ensures none { OnOk result (self.new.waiting ≡ []) }
        ensures err { OnErr result (self.new ≡ self.old) }
        ensures end { OnOk result (end_of self.new ≡ end_of self.old + length bytes.now) }
    {
        let word = self.waiting.completed(bytes);
        let offset = self.head + 8 * self.words.len() as u64;
        append_words(
            &mut self.words,
            &mut self.places,
            &mut self.sieve,
            offset,
            &word,
        )?;
        self.waiting = Waiting::new();
        Ok(())
    }

    /// Takes bytes of complete words, if none waits.
    fn append(&mut self, bytes: &[u8]) -> Result<(), AllocError>
        requires none { self.old.waiting ≡ [] }
        requires whole { length bytes.now % 8 ≡ 0 }
        requires fits { end_of self.old + length bytes.now < 2 ^ 64 }
        ensures ok { OnOk result (Takes self.old bytes.now self.new) }
        ensures err { OnErr result (TakesSome self.old bytes.now self.new) }
        ensures none { self.new.waiting ≡ [] }
        ensures end { OnOk result (end_of self.new ≡ end_of self.old + length bytes.now) }
    {
        let offset = self.head + 8 * self.words.len() as u64;
        append_words(
            &mut self.words,
            &mut self.places,
            &mut self.sieve,
            offset,
            bytes,
        )
    }

    /// Takes bytes of complete words, if none waits, by as many workers as have enough to do.
    fn append_by<T: Threads + Sync>(
        &mut self,
        team: &Team<'_, T>,
        bytes: &[u8],
    ) -> Result<(), AllocError>
        requires none { self.old.waiting ≡ [] }
        requires whole { length bytes.now % 8 ≡ 0 }
        requires fits { end_of self.old + length bytes.now < 2 ^ 64 }
        ensures ok { OnOk result (Takes self.old bytes.now self.new) }
        ensures err { OnErr result (TakesSome self.old bytes.now self.new) }
        ensures none { self.new.waiting ≡ [] }
        ensures end { OnOk result (end_of self.new ≡ end_of self.old + length bytes.now) }
    {
        if team.workers < 2 || bytes.len() < 2 * LEAST {
            return self.append(bytes);
        }
        let count = (bytes.len() / LEAST).min(team.workers as usize) as u32;
        // Up to the end of the last group, so that what the workers keep begins with a group.
        let (first, rest) = bytes.split_at(512 - 8 * (self.words.len() % 64));
        self.append(first)?;
        self.append_groups(team, rest, count)
    }

    /// The same by so many workers, if the words so far fill whole groups.
    fn append_groups<T: Threads + Sync>(
        &mut self,
        team: &Team<'_, T>,
        bytes: &[u8],
        count: u32,
    ) -> Result<(), AllocError>
        requires groups { length self.old.words % 64 ≡ 0 }
        requires none { self.old.waiting ≡ [] }
        requires whole { length bytes.now % 8 ≡ 0 }
        requires fits { end_of self.old + length bytes.now < 2 ^ 64 }
        ensures ok { OnOk result (Takes self.old bytes.now self.new) }
        ensures err { OnErr result (TakesSome self.old bytes.now self.new) }
        ensures none { self.new.waiting ≡ [] }
        ensures end { OnOk result (end_of self.new ≡ end_of self.old + length bytes.now) }
    {
        let mesh = Mesh {
            places: &self.places,
            sieve: &self.sieve,
        };
        let offset = self.head + 8 * self.words.len() as u64;
        let words = sift_parts(team, &mesh, offset, bytes, count)?;
        self.words.append(&words)
    }
}
