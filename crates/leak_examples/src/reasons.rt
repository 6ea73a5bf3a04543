//! Worked questions what holds a block, from bytes to texts.
ghost use Rattle.leak_examples.specs.Reasons.{AreWorkedReasons};

/// What holds blocks of some cores.
pub fn worked_reasons()
    ensures { AreWorkedReasons }
{}
