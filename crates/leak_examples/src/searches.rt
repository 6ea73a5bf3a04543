//! Worked searches, from bytes to reports.
ghost use Rattle.leak_examples.specs.Bounds.{AreWorkedBounds};
ghost use Rattle.leak_examples.specs.Searches.{AreWorkedSearches};
ghost use Rattle.leak_examples.specs.TwoSearches.{AreWorkedPairs};

/// The reports of some cores and logs.
pub fn worked_searches()
    ensures { AreWorkedSearches }
{}

/// What is freed memory on both sides of the bound of small allocations, and the reports then.
pub fn worked_bounds()
    ensures { AreWorkedBounds }
{}

/// The reports of some pairs of cores and logs.
pub fn worked_pairs()
    ensures { AreWorkedPairs }
{}
