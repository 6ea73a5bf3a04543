//! What is held: answers are one, and the lines of a report belong together.

ghost use Rattle.leak_laws.specs.HeldTogether.{HolderTextsDiffer, HoldersBelongTogether, MarkedHaveHolders, OwnBlocksAreMarked};
ghost use Rattle.leak_laws.specs.HolderLines.{AloneAreWithinNone, HoldersHaveLines, LinesAreOfMarked, OutermostHoldMarked};
ghost use Rattle.leak_laws.specs.HolderMeaning.{LinesAreSaid};
ghost use Rattle.leak_laws.specs.PartLines.{ByTextsHaveLines, InTextsHaveLines, PartsAreOrdered};
ghost use Rattle.leak_laws.specs.PartMeaning.{ByLinesAreSums, InLinesAreSums};
ghost use Rattle.leak_laws.specs.InSums.{InLinesAddUp};
ghost use Rattle.leak_laws.specs.Held.{AnswersAreOne, AnswersOfWhyAreAsLong, ReportsOfHoldersAreOne};

/// Two accepted reports of who holds the memory, from the same bytes and by the same options, are the same, byte by byte, and so are two
/// answers to one question about what chosen blocks hold, or who holds them.
pub fn reports_of_holders_are_one()
    ensures holders { ReportsOfHoldersAreOne }
    ensures chosen { AnswersAreOne }
{}

/// Two answers to why a block is held are of the same block, both say that it is held or neither, and have as many links. (The contract
/// leaves open which of the shortest chains is told.)
pub fn answers_of_why_are_as_long()
    ensures { AnswersOfWhyAreAsLong }
{}

/// The lines of a report on who holds the memory are in order, and each live block is marked or leaked. Without an earlier log the own
/// blocks and bytes of all lines have the sums of the marked blocks; no line has more of its own than it holds, or holds more than is marked.
pub fn holders_belong_together()
    ensures together { HoldersBelongTogether }
    ensures own { OwnBlocksAreMarked }
{}

/// No text has two lines in a report on who holds the memory; and without an earlier log each marked block's text has one.
pub fn texts_have_holders()
    ensures differ { HolderTextsDiffer }
    ensures each { MarkedHaveHolders }
{}

/// A text has a line in a report on who holds the memory exactly if its blocks hold a counted block; and each line's text is that of a
/// marked block.
pub fn holders_have_lines()
    ensures exactly { HoldersHaveLines }
    ensures marked { LinesAreOfMarked }
{}

/// A line is within 0 exactly if no other text holds each marked block of its text; and each counted block that is marked is held by
/// the text of a line that is within 0.
pub fn outermost_hold_all()
    ensures alone { AloneAreWithinNone }
    ensures all { OutermostHoldMarked }
{}

/// The lines of what chosen blocks hold have the sums of the held blocks.
pub fn in_lines_add_up()
    ensures { InLinesAddUp }
{}

/// Each line of a report on who holds the memory says of its text what docs/FORMAT.md says: how many counted blocks it holds, and how many
/// are its own, with the sums of their sizes; how many other texts hold each of its marked blocks; and where the first of these is.
pub fn holder_lines_say()
    ensures { LinesAreSaid }
{}

/// In an answer about chosen blocks the lines are in order, and no text has two. Of what the blocks hold, a text has a line exactly if they
/// hold a counted block of it; of who holds them, exactly if it is another text than that of the asked block, and holds a counted one of them.
pub fn parts_have_lines()
    ensures ordered { PartsAreOrdered }
    ensures in_lines { InTextsHaveLines }
    ensures by_lines { ByTextsHaveLines }
{}

/// Each line of an answer about chosen blocks counts the blocks of its text that they hold, or of who holds them, those of them that its text
/// holds, and has the sum of their sizes.
pub fn part_lines_say()
    ensures in_lines { InLinesAreSums }
    ensures by_lines { ByLinesAreSums }
{}
