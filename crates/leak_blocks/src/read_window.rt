//! Going over a window of a log whose lines were read before.
ghost use Rattle.std.specs.Prelude.{◌≡◌, ◌+◌, ◌^◌, ◌<◌, ◌≤◌, ℕ, List, length, false, IfOk, OnOk};
ghost use Rattle.leak_mtrace.specs.Parts.{AreLinesOf, moved};
ghost use Rattle.leak_blocks.specs.Runs.{HasComeTo};
ghost use Rattle.leak_blocks.specs.Windows.{AreReadInParts, GoesOn, GoesOver};

use crate::ongoing_replay::OngoingReplay;
use crate::window::{LogPlace, moved};
use leak_mtrace::{Line, Log};
use std::alloc::AllocError;

impl OngoingReplay<'_> {
    /// Goes over these lines of a part of the log that begins at the place.
    fn go_over_lines(&mut self, lines: &[Line], from: LogPlace) -> Result<(), AllocError>
        requires part { (bytes : List ℕ) × AreLinesOf bytes lines.now
            × (from.bytes + length bytes < 2 ^ 64) }
        requires few { from.lines ≤ from.bytes }
        requires so_far { HasComeTo (from.lines + 1) self.old }
        ensures { OnOk result
            (GoesOver from.lines (moved from.bytes lines.now) self.old self.new) }
    {
        let mut number = from.lines;
        for line in lines {
            number += 1;
            self.step(&moved(*line, from.bytes), number)?;
        }
        Ok(())
    }

    /// Goes over the complete lines of a window of the log, which begins at the place, if they were read before, part by part.
    /// Gives the place behind the last of them. Callers become ranges of the whole log.
    ///
    /// It goes over all lines, so the arena should [have room](OngoingReplay::has_room_for) for them.
    pub fn go_on_read(&mut self, parts: &[Log], from: LogPlace) -> Result<LogPlace, AllocError>
        requires read { (window : List ℕ) × AreReadInParts window parts.now
            × (from.bytes + length window < 2 ^ 64) }
        requires few { from.lines ≤ from.bytes }
        requires so_far { HasComeTo (from.lines + 1) self.old }
        ensures { IfOk result (λ to. (window : List ℕ) → AreReadInParts window parts.now
            → GoesOn window from to false self.old self.new) }
    {
        let mut at = from;
        for part in parts {
            self.go_over_lines(part.lines(), at)?;
            at.bytes += part.whole_len();
            at.lines += part.lines().len();
        }
        Ok(at)
    }
}
