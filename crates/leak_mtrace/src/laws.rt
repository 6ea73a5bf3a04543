//! Laws of lines and logs, and worked lines. Each is a function that does nothing: its contract is the law.
ghost use Rattle.leak_mtrace.specs.Examples.{AreLines, AreLogs, AreRefused};
ghost use Rattle.leak_mtrace.specs.Laws.{LinesAreOne, LogsAreOne, LogsHaveNoFault, FirstFaultsAreOne, LogsHaveTheirCallers, CallersHoldTheirPlaces, LogsContinue, LogsJoin, FirstFaultsJoin};
ghost use Rattle.leak_mtrace.specs.CallPlace.{PlacesAreOne};

/// A line says one thing at most.
pub fn lines_are_one()
    ensures { LinesAreOne }
{}

/// The place of a call ends after the last `]`, or else at the last space that a sign and a space follow.
pub fn places_are_one()
    ensures { PlacesAreOne }
{}

/// A log has one list of lines at most.
pub fn logs_are_one()
    ensures { LogsAreOne }
{}

/// A log that has its lines has no first fault.
pub fn logs_have_no_fault()
    ensures { LogsHaveNoFault }
{}

/// A log has one first fault at most.
pub fn first_faults_are_one()
    ensures { FirstFaultsAreOne }
{}

/// The callers of a log's lines are ranges of its bytes.
pub fn logs_have_their_callers()
    ensures { LogsHaveTheirCallers }
{}

/// The caller of a line, as a range of the log's bytes, holds the place that the line names.
pub fn callers_hold_their_places()
    ensures { CallersHoldTheirPlaces }
{}

/// A log that begins with the complete lines of another has that log's lines, and then its own.
pub fn logs_continue()
    ensures { LogsContinue }
{}

/// A log that begins with complete lines has these, and then those of what follows, moved. Its first fault is
/// that of what follows, moved.
pub fn logs_join()
    ensures lines { LogsJoin }
    ensures fault { FirstFaultsJoin }
{}

/// Worked lines.
pub fn worked_lines()
    ensures { AreLines }
{}

/// Lines that are refused.
pub fn refused_lines()
    ensures { AreRefused }
{}

/// Worked logs.
pub fn worked_logs()
    ensures { AreLogs }
{}
