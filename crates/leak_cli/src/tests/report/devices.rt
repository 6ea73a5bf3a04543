//! What writers take of a text.

use crate::tests::comparisons::same;
use crate::tests::report::samples::{NOTHING_ODD, report};
use leak_streams::{WriteFault, write};
use std::alloc::Global;
use std::io;
use std::io::{ErrorKind, Write};
use std::test::Fail;

/// A writer that is interrupted some times before each write, takes a few bytes at a time, and has room for some.
/// When it is full it fails, or takes nothing.
#[derive(Drop)]
struct Device {
    held: Vec<u8>,
    step: usize,
    room: usize,
    fails: bool,
    interruptions: u64,
}

impl Write for Device {
    fn write(&mut self, bytes: &[u8]) -> io::Result<usize> {
        if self.interruptions > 0 {
            self.interruptions -= 1;
            return Err(io::Error::from(ErrorKind::Interrupted));
        }
        if self.room == 0 && self.fails {
            return Err(io::Error::from(ErrorKind::Other));
        }
        let count = bytes.len().min(self.step).min(self.room);
        self.held.extend_from_slice(&bytes[..count])?;
        self.room -= count;
        Ok(count)
    }

    fn flush(&mut self) -> io::Result<()> {
        Ok(())
    }
}

fn sink(alloc: Global, step: usize, room: usize, fails: bool, interruptions: u64) -> Device {
    Device {
        held: Vec::new(alloc),
        step,
        room,
        fails,
        interruptions,
    }
}

#[test]
fn a_fault_tells_what_was_taken(rt: HostRuntime) -> Result<(), Fail> {
    let text = report(&rt, rt.alloc(), &NOTHING_ODD, "", &[], &[])?;
    for fails in [true, false] {
        let mut full = sink(rt.alloc(), 4, 10, fails, 3);
        let result = write(text.as_slice(), &mut full);
        same(&rt, result, Err(WriteFault { written: 10 }));
        same(&rt, full.held.as_slice(), b"blocks 0 b".as_slice());
    }
    Ok(())
}

#[test]
fn interruptions_are_counted(rt: HostRuntime) -> Result<(), Fail> {
    let mut patient = sink(rt.alloc(), 2, 100, true, 999_999);
    same(&rt, write(b"leaked", &mut patient), Ok(()));
    same(&rt, patient.held.as_slice(), b"leaked".as_slice());
    let mut endless = sink(rt.alloc(), 2, 100, true, 1_000_000);
    same(
        &rt,
        write(b"leaked", &mut endless),
        Err(WriteFault { written: 0 }),
    );
    same(&rt, endless.held.as_slice(), b"".as_slice());
    Ok(())
}

#[test]
fn a_vec_takes_the_text(rt: HostRuntime) -> Result<(), Fail> {
    let mut out = Vec::from_slice(rt.alloc(), b"torn ")?;
    same(&rt, write(b"1\n", &mut out), Ok(()));
    same(&rt, out.as_slice(), b"torn 1\n".as_slice());
    Ok(())
}

#[test]
fn fault_text(rt: HostRuntime) -> Result<(), Fail> {
    let fault = WriteFault { written: 10 };
    let text = format!(in rt.alloc(); "{fault}")?;
    same(&rt, text.as_str(), "write failed after 10 bytes");
    Ok(())
}
