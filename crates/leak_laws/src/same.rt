//! Answers are functions of the files that they are about.

ghost use Rattle.leak_laws.specs.Same.{ReportsOfOneAreOne, ReportsOfTwoAreOne, SignsAreOne};

/// Two accepted searches of the same bytes, with one reading, the same left out, and misfits listed in both or in neither, give
/// the same report, byte by byte, whatever their workers: of one core, and of two.
pub fn reports_are_one()
    ensures one { ReportsOfOneAreOne }
    ensures two { ReportsOfTwoAreOne }
{}

/// The signs of the same cores and logs are the same, and so are their warnings.
pub fn signs_are_one()
    ensures { SignsAreOne }
{}
