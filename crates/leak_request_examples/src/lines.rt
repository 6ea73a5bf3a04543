//! Worked command lines: what they ask for, or why they are refused.
ghost use Rattle.leak_request_examples.specs.SearchLines.{AreWorkedSearchLines, AreWorkedTexts};
ghost use Rattle.leak_request_examples.specs.QuestionLines.{AreWorkedGrowLines, AreWorkedHoldersLines, AreWorkedRefusals, AreWorkedWhyLines};

/// Command lines that ask for a search.
pub fn worked_search_lines()
    ensures { AreWorkedSearchLines }
{}

/// Command lines that ask what holds a block, and refused ones.
pub fn worked_why_lines()
    ensures { AreWorkedWhyLines }
{}

/// Command lines that ask who holds the memory, and refused ones.
pub fn worked_holders_lines()
    ensures { AreWorkedHoldersLines }
{}

/// Command lines that ask what grew, and refused ones.
pub fn worked_grow_lines()
    ensures { AreWorkedGrowLines }
{}

/// Searches that are refused.
pub fn worked_refusals()
    ensures { AreWorkedRefusals }
{}

/// Command lines that ask for help or for the version.
pub fn worked_texts()
    ensures { AreWorkedTexts }
{}
