//! Worked stacks.
ghost use Rattle.leak_examples.specs.Stacks.{AreWorkedStacks};

/// What is dead of some stacks.
pub fn worked_stacks()
    ensures { AreWorkedStacks }
{}
