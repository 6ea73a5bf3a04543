//! Worked chains that hold a block, and how they are told.
ghost use Rattle.leak_examples.specs.Chains.{AreWorkedChains};
ghost use Rattle.leak_examples.specs.Distances.{AreWorkedDistances, IsWorkedRow};
ghost use Rattle.leak_examples.specs.Told.{AreAskedBlocks, AreRegisterNames, AreWorkedTexts, IsToldWhole};

/// What holds some blocks.
pub fn worked_chains()
    ensures { AreWorkedChains }
{}

/// Which words keep a block if some distances alone count, and if ends are left out.
pub fn worked_distances()
    ensures { AreWorkedDistances }
{}

/// A hundred blocks, each held by the one before.
pub fn worked_row()
    ensures chains { IsWorkedRow }
    ensures text { IsToldWhole }
{}

/// The texts of some answers.
pub fn worked_answers()
    ensures { AreWorkedTexts }
{}

/// The names of register words.
pub fn register_names()
    ensures { AreRegisterNames }
{}

/// The blocks that some addresses ask for.
pub fn asked_blocks()
    ensures { AreAskedBlocks }
{}
