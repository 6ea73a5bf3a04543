//! Reads a whole log, line by line.
ghost use Rattle.std.specs.Prelude.{◌≡◌, ◌≢◌, IfOk, IfErr};
ghost use Rattle.leak_mtrace.specs.Log.{LinesFit, Whole, IsReadAs, IsFirstFault, CallersAreIn};

use crate::error::LogError;
use crate::line::Line;
use crate::reader::Reader;
use memchr::memchr_iter;
use std::alloc::Global;
use std::marker::Model;

/// The lines of a log. It is for libraries and tests: the program goes by a [`Reader`].
#[derive(Debug, Drop)]
pub struct Log {
    lines: Vec<Line>,
    torn: u64,
    whole_len: usize,
}

impl Model for Log {
    ghost Value = { Whole };

    ghost view = { λ log.
        record { lines = log.lines.items; torn = log.torn; whole_len = log.whole_len } };

    ghost invariant = { λ log. LinesFit log.lines.items };
}

impl Log {
    /// Reads a whole log, or gives its first fault. What follows the last line feed is torn, and is not a line.
    pub fn read(alloc: Global, bytes: &[u8]) -> Result<Log, LogError>
        ensures ok { IfOk result (λ log. IsReadAs bytes.now log) }
        ensures callers { IfOk result (λ log. CallersAreIn bytes.now log.lines) }
        ensures refused { IfErr result (λ e. e ≢ LogError.NoMemory → IsFirstFault bytes.now e) }
    {
        // counted first, so that memory is allocated once, and for no more than the lines
        let mut lines = Vec::with_capacity(alloc, memchr_iter(b'\n', bytes).count())?;
        let mut reader = Reader::new(bytes);
        while let Some(line) = reader.next_line()? {
            lines.push(line)?;
        }
        Ok(Log {
            lines,
            torn: reader.torn(),
            whole_len: reader.whole_len(),
        })
    }

    /// The lines in order, remarks included. A caller is a range of the log's bytes.
    pub fn lines(&self) -> &[Line]
        ensures value { result.now ≡ self.now.lines }
        ensures fit { LinesFit result.now }
    {
        self.lines.as_slice()
    }

    /// How many lines are torn: 1 if something follows the last line feed, and 0 otherwise.
    pub fn torn(&self) -> u64
        ensures { result ≡ self.now.torn }
    {
        self.torn
    }

    /// How many bytes the complete lines take, the last line feed included.
    pub fn whole_len(&self) -> usize
        ensures { result ≡ self.now.whole_len }
    {
        self.whole_len
    }
}
