//! Reports, for those who read them.

ghost use Rattle.leak_laws.specs.OneLine.{ReportsOfOneAreOfLines, ReportsOfTwoAreOfLines, TextsAreOfOneLine};
ghost use Rattle.leak_laws.specs.Reports.{CheckAddsMisfits, CheckAddsMisfitsOfTwo, ReportsAreTold, ReportsOfOneBelongTogether, ReportsOfTwoBelongTogether};
ghost use Rattle.leak_laws.specs.Readable.{ReportsReadBack};

/// Two reports with the same bytes tell the same, line by line and number by number, if no text has a line feed and each number is
/// below 2^64. A report tells the lines that it is made of.
pub fn reports_read_back()
    ensures told { ReportsAreTold }
    ensures one { ReportsReadBack }
{}

/// The lines of a report belong together, as docs/FORMAT.md says: each live block is marked or leaked, and numbers of lines and their
/// sums are those that the first lines say; lines are in order, and none is there twice. The exit status goes by the number of leaked
/// blocks.
pub fn lines_belong_together()
    ensures one { ReportsOfOneBelongTogether }
    ensures two { ReportsOfTwoBelongTogether }
{}

/// Without the lines of misfits a report with them is that of the same search without `--check`, in one core and in two.
pub fn check_adds_misfits()
    ensures one { CheckAddsMisfits }
    ensures two { CheckAddsMisfitsOfTwo }
{}

/// The text of a caller has no line feed: of no live block of a log, and so in no line of a report.
pub fn texts_are_of_one_line()
    ensures blocks { TextsAreOfOneLine }
    ensures one { ReportsOfOneAreOfLines }
    ensures two { ReportsOfTwoAreOfLines }
{}
