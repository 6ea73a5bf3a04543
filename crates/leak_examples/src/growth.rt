//! What grew between worked logs.
ghost use Rattle.leak_examples.specs.Growth.{AreWorkedGrowths};

/// The reports of some logs.
pub fn worked_growths()
    ensures { AreWorkedGrowths }
{}
