//! Readers and writers that are slow, fail or are interrupted.

use std::alloc::Global;
use std::io;
use std::io::{ErrorKind, Read, Write};
use std::test::Fail;

/// A reader over memory.
#[derive(Drop)]
pub struct Source {
    left: Vec<u8>,
    /// How many bytes a read gives at most.
    step: usize,
    /// How many reads are interrupted before the first that is not.
    interruptions: u64,
    /// How many reads give bytes before one fails.
    reads: u64,
}

impl Source {
    /// A reader that gives all bytes at once.
    pub fn of(alloc: Global, bytes: &[u8]) -> Result<Source, Fail> {
        Source::slow(alloc, bytes, usize::MAX)
    }

    /// A reader that gives this many bytes at a time.
    pub fn slow(alloc: Global, bytes: &[u8], step: usize) -> Result<Source, Fail> {
        let mut left = Vec::from_slice(alloc, bytes)?;
        left.reverse();
        Ok(Source {
            left,
            step,
            interruptions: 0,
            reads: u64::MAX,
        })
    }

    /// The same, once this many reads have been interrupted.
    pub fn interrupted(self, interruptions: u64) -> Source {
        Source {
            left: self.left,
            step: self.step,
            interruptions,
            reads: self.reads,
        }
    }

    /// The same, but it fails after this many reads.
    pub fn failing_after(self, reads: u64) -> Source {
        Source {
            left: self.left,
            step: self.step,
            interruptions: self.interruptions,
            reads,
        }
    }

    /// Makes the next read fail.
    pub fn fail(&mut self) {
        self.reads = 0;
    }

    /// How many bytes were not read.
    pub fn left(&self) -> usize {
        self.left.len()
    }
}

impl Read for Source {
    fn read(&mut self, buf: &mut [u8]) -> io::Result<usize> {
        if self.interruptions > 0 {
            self.interruptions -= 1;
            return Err(io::Error::from(ErrorKind::Interrupted));
        }
        if self.reads == 0 {
            return Err(io::Error::from(ErrorKind::Other));
        }
        self.reads -= 1;
        let count = buf.len().min(self.step).min(self.left.len());
        for place in &mut buf[..count] {
            if let Some(byte) = self.left.pop() {
                *place = byte;
            }
        }
        Ok(count)
    }
}

/// A reader over bytes that it doesn't copy first.
#[derive(Drop)]
pub struct Steps<'a> {
    left: &'a [u8],
    step: usize,
}

impl<'a> Steps<'a> {
    /// A reader that gives this many bytes at a time.
    pub fn of(bytes: &'a [u8], step: usize) -> Steps<'a> {
        Steps { left: bytes, step }
    }
}

impl Read for Steps<'_> {
    fn read(&mut self, buf: &mut [u8]) -> io::Result<usize> {
        let count = buf.len().min(self.step).min(self.left.len());
        let (given, left) = self.left.split_at(count);
        buf[..count].copy_from_slice(given);
        self.left = left;
        Ok(count)
    }
}

/// A writer with room for some bytes, which fails when it is full.
#[derive(Drop)]
pub struct Sink {
    pub held: Vec<u8>,
    room: usize,
}

impl Sink {
    /// A writer with room for this many bytes.
    pub fn of(alloc: Global, room: usize) -> Sink {
        Sink {
            held: Vec::new(alloc),
            room,
        }
    }
}

impl Write for Sink {
    fn write(&mut self, bytes: &[u8]) -> io::Result<usize> {
        if self.room == 0 {
            return Err(io::Error::from(ErrorKind::Other));
        }
        let count = bytes.len().min(self.room);
        self.held.extend_from_slice(&bytes[..count])?;
        self.room -= count;
        Ok(count)
    }

    fn flush(&mut self) -> io::Result<()> {
        Ok(())
    }
}

/// A reader without an end.
#[derive(Drop)]
pub struct Endless {
    /// How many bytes were read.
    pub taken: u64,
}

impl Read for Endless {
    fn read(&mut self, buf: &mut [u8]) -> io::Result<usize> {
        buf.fill(0);
        self.taken = self.taken.saturating_add(buf.len() as u64);
        Ok(buf.len())
    }
}

/// What a device does at a call.
#[derive(Clone, Copy)]
pub enum Turn {
    /// Some bytes are given or taken, at most this many.
    Bytes(usize),
    /// The call is interrupted, and so are the next ones: this many in all.
    Interrupted(u64),
    /// The call fails.
    Fails,
}

/// What a device does at its next calls. After them it gives or takes all that it can.
#[derive(Drop)]
struct Turns {
    /// The last one first.
    left: Vec<Turn>,
}

impl Turns {
    fn of(alloc: Global, turns: &[Turn]) -> Result<Turns, Fail> {
        let mut left = Vec::from_slice(alloc, turns)?;
        left.reverse();
        Ok(Turns { left })
    }

    /// How many bytes the next call moves at most, or its error.
    fn take(&mut self) -> io::Result<usize> {
        match self.left.pop() {
            None => Ok(usize::MAX),
            Some(Turn::Bytes(most)) => Ok(most),
            Some(Turn::Fails) => Err(io::Error::from(ErrorKind::Other)),
            Some(Turn::Interrupted(times)) => {
                if times > 1 {
                    self.left.push(Turn::Interrupted(times - 1))?;
                }
                Err(io::Error::from(ErrorKind::Interrupted))
            }
        }
    }
}

/// A reader over memory that does what its turns say.
#[derive(Drop)]
pub struct Giver {
    left: Vec<u8>,
    turns: Turns,
    /// How many reads were made.
    pub reads: u64,
}

impl Giver {
    pub fn of(alloc: Global, bytes: &[u8], turns: &[Turn]) -> Result<Giver, Fail> {
        let mut left = Vec::from_slice(alloc, bytes)?;
        left.reverse();
        Ok(Giver {
            left,
            turns: Turns::of(alloc, turns)?,
            reads: 0,
        })
    }

    /// How many bytes were not read.
    pub fn left(&self) -> usize {
        self.left.len()
    }
}

impl Read for Giver {
    fn read(&mut self, buf: &mut [u8]) -> io::Result<usize> {
        self.reads = self.reads.saturating_add(1);
        let most = self.turns.take()?;
        let count = buf.len().min(most).min(self.left.len());
        for place in &mut buf[..count] {
            if let Some(byte) = self.left.pop() {
                *place = byte;
            }
        }
        Ok(count)
    }
}

/// A writer over memory that does what its turns say.
#[derive(Drop)]
pub struct Taker {
    pub held: Vec<u8>,
    turns: Turns,
    /// How many writes were made.
    pub writes: u64,
}

impl Taker {
    pub fn of(alloc: Global, turns: &[Turn]) -> Result<Taker, Fail> {
        Ok(Taker {
            held: Vec::new(alloc),
            turns: Turns::of(alloc, turns)?,
            writes: 0,
        })
    }
}

impl Write for Taker {
    fn write(&mut self, bytes: &[u8]) -> io::Result<usize> {
        self.writes = self.writes.saturating_add(1);
        let count = bytes.len().min(self.turns.take()?);
        self.held.extend_from_slice(&bytes[..count])?;
        Ok(count)
    }

    fn flush(&mut self) -> io::Result<()> {
        Ok(())
    }
}
