//! Reads the lines of a log one after another.

ghost use Rattle.std.specs.Prelude.{◌≡◌, ◌+◌, ◌<◌, ◌≤◌, ◌^◌, List, [], length, IfOk, IfErr, IfNone, OnErr};
ghost use Rattle.std.specs.Bool.{MatchBool};
ghost use Rattle.leak_mtrace.specs.declared.line.Line.{Line};
ghost use Rattle.leak_mtrace.specs.Log.{IsGoodLine, IsFaulty, IsPastEnd, placed, IsFirstFault, torn_of, whole_len_of};
ghost use Rattle.leak_mtrace.specs.Reading.{Reading, HasRead, IsNextRead};

use crate::error::LogError;
use crate::line::{Kind, Line};
use crate::parsing::parse_line;
use memchr::memchr;
use std::marker::Model;

/// Whether the line's block ends past the address space. A call that failed made no block.
fn is_past_end(line: Line) -> bool
    ensures { MatchBool result (IsPastEnd line) (IsPastEnd line → ⊥) }
{
    matches!(line.kind, Kind::Alloc | Kind::MoveIn) && line.addr.checked_add(line.size).is_none()
}

/// The line with its caller as a range of the log, in which the line begins at this place.
fn place_at(line: Line, at: usize) -> Line
    requires order { line.caller.0 ≤ line.caller.1 }
    requires room { at + line.caller.1 < 2 ^ 64 }
    ensures { result ≡ placed at line }
{
    if line.caller.1 == 0 {
        line
    } else {
        Line {
            caller: (at + line.caller.0, at + line.caller.1),
            ..line
        }
    }
}

/// Reads the log's line of this number, which begins at this place.
#[inline(always)]
fn read_line(text: &[u8], at: usize, number: usize) -> Result<Line, LogError>
    requires { at + length text.now < 2 ^ 64 }
    ensures ok { IfOk result (IsGoodLine (at, text.now)) }
    ensures refused { IfErr result (λ e. IsFaulty e number (at, text.now)) }
{
    let Some(line) = parse_line(text) else {
        return Err(LogError::BadLine(number));
    };
    if is_past_end(line) {
        return Err(LogError::Extent(number));
    }
    Ok(place_at(line, at))
}

/// Reads a log line by line, and keeps none of them.
#[derive(Drop)]
pub struct Reader<'a> {
    bytes: &'a [u8],
    /// Where the next line begins.
    start: usize,
    /// How many lines come before it.
    count: usize,
}

impl<'a> Model for Reader<'a> {
    ghost Value = { Reading };

    ghost view = { λ r. record { bytes = r.bytes.now; start = r.start; count = r.count } };

    ghost invariant = { λ r. (r.start ≤ length r.bytes.now) × (r.count ≤ r.start) };
}

impl<'a> Reader<'a> {
    /// A reader before the first line of the log.
    pub fn new(bytes: &'a [u8]) -> Reader<'a>
        ensures bytes { result.bytes ≡ bytes.now }
        ensures before { HasRead result [] }
    {
        Reader {
            bytes,
            start: 0,
            count: 0,
        }
    }

    /// Reads the next line, or gives the log's first fault. What follows the last line feed is torn, and is not a line.
    #[inline(always)]
    pub fn next_line(&mut self) -> Result<Option<Line>, LogError>
        ensures bytes { self.new.bytes ≡ self.old.bytes }
        ensures room { self.new.count ≤ length self.old.bytes }
        ensures next { IfOk result (λ next.
            (lines : List Line) → HasRead self.old lines → IsNextRead self.new lines next) }
        ensures refused { IfErr result (λ e.
            (lines : List Line) → HasRead self.old lines → IsFirstFault self.old.bytes e) }
        ensures stays_refused { OnErr result (self.new ≡ self.old) }
        ensures stays_ended { IfOk result (λ next. IfNone next (self.new ≡ self.old)) }
    {
        let bytes = self.bytes;
        let start = self.start;
        let Some(len) = memchr(b'\n', &bytes[start..]) else {
            return Ok(None);
        };
        let line = read_line(&bytes[start..start + len], start, self.count + 1)?;
        self.start = start + len + 1;
        self.count += 1;
        Ok(Some(line))
    }

    /// How many lines were read.
    pub fn count(&self) -> usize
        ensures { result ≡ self.now.count }
    {
        self.count
    }

    /// How many lines are torn, once all are read: 1 if something follows the last line feed, and 0 otherwise.
    pub fn torn(&self) -> u64
        ensures { self.now.start ≡ whole_len_of self.now.bytes → result ≡ torn_of self.now.bytes }
    {
        u64::from(self.start < self.bytes.len())
    }

    /// How many bytes the lines so far take, their line feeds included.
    pub fn whole_len(&self) -> usize
        ensures { result ≡ self.now.start }
    {
        self.start
    }
}
