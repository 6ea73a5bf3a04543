//! Laws of the definitions, and worked reports, warnings and texts.
ghost use Rattle.leak_report.specs.Examples.{AreWorkedReports};
ghost use Rattle.leak_report.specs.WarningExamples.{AreWorkedWarnings};
ghost use Rattle.leak_report.specs.TextExamples.{AreWorkedTexts};
ghost use Rattle.leak_report.specs.Laws.{RowsAreSums, LiveHaveCallers, NumbersTell};
ghost use Rattle.leak_report.specs.Elsewhere.{ReportsGoByTexts};
ghost use Rattle.leak_report.specs.PlaceExamples.{AreWorkedPlaces};

use leak_blocks::live_are_of_lines;

/// The rows by caller are the one list in which each row sums up the blocks with its text, each block has a row, and
/// each row ranks before the later ones.
pub fn rows_are_sums()
    ensures { RowsAreSums }
{}

/// The reports of some blocks.
pub fn worked_reports()
    ensures { AreWorkedReports }
{}

/// The warnings of some inputs.
pub fn worked_warnings()
    ensures { AreWorkedWarnings }
{}

/// The live blocks of a log have their callers in it, as [`text`](crate::text) wants.
pub fn live_have_callers()
    ensures { LiveHaveCallers }
{
    // (a law, for the proof: each live block is of a line)
    live_are_of_lines();
}

/// Numbers compare as their texts do: equal ones are of equal texts, and the lesser is of the text that comes first.
pub fn numbers_tell()
    ensures { NumbersTell }
{}

/// The texts and the numbers of the blocks of a log.
pub fn worked_texts()
    ensures { AreWorkedTexts }
{}

/// A report goes by the texts of the callers, wherever these stand: blocks whose callers are ranges of other bytes, with
/// the same texts there, have the report of the blocks of the log.
pub fn reports_go_by_texts()
    ensures { ReportsGoByTexts }
{}

/// Texts that are kept elsewhere, for the blocks of a log.
pub fn worked_places()
    ensures { AreWorkedPlaces }
{}
