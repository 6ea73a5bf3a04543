//! Laws of live blocks, and worked logs. Each is a function that does nothing: its contract is the law.
ghost use Rattle.leak_blocks.specs.Examples.{AreWorkedLogs};
ghost use Rattle.leak_blocks.specs.Laws.{LiveAreDisjoint, LiveAreOfLines, LiveAreAddressed, LiveAreOneALine, LiveWereLive, ReplaysLineByLine};

/// The live blocks of a log have no address in common, and are sorted by ascending start.
pub fn live_are_disjoint()
    ensures { LiveAreDisjoint }
{}

/// Each live block is that of an allocation of the log, and has its line's number and caller.
pub fn live_are_of_lines()
    ensures { LiveAreOfLines }
{}

/// The live blocks of a log without a faulty extent begin above 0, and end by the last address.
pub fn live_are_addressed()
    ensures { LiveAreAddressed }
{}

/// A log has one live block a line at most.
pub fn live_are_one_a_line()
    ensures { LiveAreOneALine }
{}

/// A block that is live in a log was live in each beginning of the log that has its line.
pub fn live_were_live()
    ensures { LiveWereLive }
{}

/// What one more line does to the live blocks and the counts.
pub fn replays_line_by_line()
    ensures { ReplaysLineByLine }
{}

/// The live blocks and the counts of some logs.
pub fn worked_logs()
    ensures { AreWorkedLogs }
{}
