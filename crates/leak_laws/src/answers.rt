//! The other reports and answers, for those who read them.

ghost use Rattle.leak_laws.specs.HeldOneLine.{AnswersAreOfLines, GrowthIsOfLines, HoldersAreOfLines, WhyIsOfLines};
ghost use Rattle.leak_laws.specs.ToldAnswers.{AnswersAreTold, AnswersReadBack};
ghost use Rattle.leak_laws.specs.ToldGrowth.{GrowthIsTold, GrowthReadsBack};
ghost use Rattle.leak_laws.specs.ToldHolders.{HoldersAreTold, HoldersReadBack};
ghost use Rattle.leak_laws.specs.ToldWhy.{WhyIsTold, WhyReadsBack};
ghost use Rattle.leak_laws.specs.ZeroRows.{AreAtZero};

/// Two reports of what grew with the same bytes tell the same, as those of leaks do.
pub fn growth_reads_back()
    ensures told { GrowthIsTold }
    ensures one { GrowthReadsBack }
{}

/// Two reports of who holds the memory with the same bytes tell the same, and so do two answers about chosen blocks.
pub fn holders_read_back()
    ensures told { HoldersAreTold }
    ensures one { HoldersReadBack }
    ensures answers_told { AnswersAreTold }
    ensures one_answer { AnswersReadBack }
{}

/// Two answers to why a block is held with the same bytes tell the same: of the place of the root, its text.
pub fn why_reads_back()
    ensures told { WhyIsTold }
    ensures one { WhyReadsBack }
{}

/// The text of a caller has no line feed in any of these reports and answers, and the answers have the bytes of their lines.
pub fn answers_are_of_lines()
    ensures growth { GrowthIsOfLines }
    ensures holders { HoldersAreOfLines }
    ensures chosen { AnswersAreOfLines }
    ensures why { WhyIsOfLines }
{}

/// A root word may be at the address 0, for which docs/FORMAT.md has `0x0`: addresses of blocks are above 0.
pub fn roots_at_zero()
    ensures { AreAtZero }
{}
