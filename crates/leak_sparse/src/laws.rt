//! Worked lists, whose rows are computed.
ghost use Rattle.leak_sparse.specs.Rows.{AreWorkedGroups, AreWorkedLists};

/// What some groups and kept words stand for, and what some lists have.
pub fn worked_words()
    ensures groups { AreWorkedGroups }
    ensures lists { AreWorkedLists }
{}
