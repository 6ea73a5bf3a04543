//! Worked exit statuses.
ghost use Rattle.leak_examples.specs.Statuses.{AreWorkedStatuses};

/// The statuses of some runs.
pub fn worked_statuses()
    ensures { AreWorkedStatuses }
{}
