//! Going over a log window by window.
ghost use Rattle.std.specs.Prelude.{◌≡◌, ◌≢◌, ◌+◌, ◌^◌, ◌<◌, ◌≤◌, [], List, length, IfOk, IfErr, false, true};
ghost use Rattle.leak_mtrace.specs.declared.line.Line.{Line};
ghost use Rattle.leak_mtrace.specs.Log.{placed, whole_len_of};
ghost use Rattle.leak_mtrace.specs.Parts.{later_fault};
ghost use Rattle.leak_mtrace.specs.Reading.{HasRead};
ghost use Rattle.leak_blocks.specs.Runs.{HasComeTo};
ghost use Rattle.leak_blocks.specs.Windows.{GoesOn, HaveComeOn, IsLaterFault, IsNextMoved, line_of_fault};

use crate::ongoing_replay::OngoingReplay;
use bumpalo::Bump;
use leak_mtrace::{Line, LogError, Reader};

/// A place in a log between two lines: how many bytes and how many lines come before it.
#[derive(Clone, Copy, Debug, PartialEq, Eq)]
pub struct LogPlace {
    pub bytes: usize,
    pub lines: usize,
}

/// The line with its caller as a range of the log, in which so many bytes come before the window.
#[inline(always)]
pub(crate) fn moved(line: Line, bytes: usize) -> Line
    requires room { bytes + line.caller.1 < 2 ^ 64 }
    requires order { line.caller.0 ≤ line.caller.1 }
    ensures { result ≡ placed bytes line }
{
    if line.caller.1 == 0 {
        line
    } else {
        Line {
            caller: (bytes + line.caller.0, bytes + line.caller.1),
            ..line
        }
    }
}

/// The fault with its line's number counted in the log, in which so many lines come before the window.
fn later_fault(fault: LogError, lines: usize) -> LogError
    requires { lines + line_of_fault fault < 2 ^ 64 }
    ensures { result ≡ later_fault lines fault }
{
    match fault {
        LogError::BadLine(number) => LogError::BadLine(lines + number),
        LogError::Extent(number) => LogError::Extent(lines + number),
        LogError::NoMemory => LogError::NoMemory,
    }
}

/// Reads the next line of a window that begins at this place, or gives its first fault.
#[inline(always)]
fn next_moved(reader: &mut Reader<'_>, from: LogPlace) -> Result<Option<Line>, LogError>
    requires fits { from.bytes + length reader.old.bytes < 2 ^ 64 }
    requires few { from.lines ≤ from.bytes }
    requires so_far { (lines : List Line) × HasRead reader.old lines }
    ensures bytes { reader.new.bytes ≡ reader.old.bytes }
    ensures room { reader.new.count ≤ length reader.old.bytes }
    ensures next { IfOk result (λ next.
        (lines : List Line) → HasRead reader.old lines → IsNextMoved from.bytes reader.new lines next) }
    ensures refused { IfErr result (IsLaterFault from.lines reader.old.bytes) }
{
    match reader.next_line() {
        Ok(Some(line)) => Ok(Some(moved(line, from.bytes))),
        Ok(None) => Ok(None),
        Err(fault) => Err(later_fault(fault, from.lines)),
    }
}

impl OngoingReplay<'_> {
    /// Goes over the lines of a window that begins at this place, until few of the arena's bytes are left. Returns whether
    /// there may be more.
    fn go_over_window(
        &mut self,
        arena: &Bump,
        reader: &mut Reader<'_>,
        from: LogPlace,
    ) -> Result<bool, LogError>
        requires fits { from.bytes + length reader.old.bytes < 2 ^ 64 }
        requires few { from.lines ≤ from.bytes }
        requires first { HasRead reader.old [] }
        requires so_far { HasComeTo (from.lines + 1) self.old }
        ensures bytes { reader.new.bytes ≡ reader.old.bytes }
        ensures after { IfOk result (λ more. HaveComeOn reader.new from self.old self.new) }
        ensures end { IfOk result (λ more.
            more ≡ false → whole_len_of reader.new.bytes ≡ reader.new.start) }
        ensures later { IfOk result (λ more. more ≡ true → 0 < reader.new.count) }
        ensures refused { IfErr result
            (λ e. e ≢ LogError.NoMemory → IsLaterFault from.lines reader.old.bytes e) }
    {
        loop {
            let Some(line) = next_moved(reader, from)? else {
                return Ok(false);
            };
            self.step(&line, from.lines + reader.count())?;
            if self.is_full(arena) {
                return Ok(true);
            }
        }
    }

    /// Goes over the complete lines of a window of the log, which begins at the place, until few of the arena's bytes are
    /// left. Gives the place behind the last line that it has gone over, and whether the window may have more lines.
    /// Callers become ranges of the whole log.
    pub fn go_on(
        &mut self,
        arena: &Bump,
        window: &[u8],
        from: LogPlace,
    ) -> Result<(LogPlace, bool), LogError>
        requires fits { from.bytes + length window.now < 2 ^ 64 }
        requires few { from.lines ≤ from.bytes }
        requires so_far { HasComeTo (from.lines + 1) self.old }
        ensures ok { IfOk result (λ gone. GoesOn window.now from gone.0 gone.1 self.old self.new) }
        ensures refused { IfErr result
            (λ e. e ≢ LogError.NoMemory → IsLaterFault from.lines window.now e) }
    {
        let mut reader = Reader::new(window);
        let more = self.go_over_window(arena, &mut reader, from)?;
        let to = LogPlace {
            bytes: from.bytes + reader.whole_len(),
            lines: from.lines + reader.count(),
        };
        Ok((to, more))
    }
}
