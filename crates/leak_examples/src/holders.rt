//! Worked answers who holds the memory, from bytes to reports.
ghost use Rattle.leak_examples.specs.Holding.{AreWorkedHolders};

/// Who holds the blocks of some cores.
pub fn worked_holders()
    ensures { AreWorkedHolders }
{}
