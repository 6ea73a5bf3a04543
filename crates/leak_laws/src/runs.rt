//! Whole runs.

ghost use Rattle.leak_laws.specs.HeldRuns.{GrowRunsAreOne, HoldersRunsAreOne, WhyRunsAreOne};
ghost use Rattle.leak_laws.specs.Runs.{RunsAreOne, RunsWriteReports};

/// Two runs of a search over the same bytes write the same bytes and have the same status, if their options ask for the same: for every
/// number of workers, pieces and stacks of any size, and any limits.
pub fn runs_are_one()
    ensures { RunsAreOne }
{}

/// What a run of a search writes are lines that belong together, each text on one of them; and unless warnings have a status of their
/// own, the status is 1 if the report says that a block leaked, and 0 if none did.
pub fn runs_write_reports()
    ensures { RunsWriteReports }
{}

/// Two runs that tell who holds the memory, answer the same question, or tell what grew, write the same bytes over the same bytes and
/// have the same status. Of two runs that tell why a block is held, the status is the same.
pub fn other_runs_are_one()
    ensures holders { HoldersRunsAreOne }
    ensures growth { GrowRunsAreOne }
    ensures why { WhyRunsAreOne }
{}
