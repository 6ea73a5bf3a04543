//! Laws of what grew.

ghost use Rattle.leak_laws.specs.Growth.{GrowthsAddUp, ReportsOfGrowthAreOne};
ghost use Rattle.leak_laws.specs.GrowthRows.{AreWorkedGrowths};

/// Two accepted comparisons of the same two logs give the same report, byte by byte, and the same signs.
pub fn reports_of_growth_are_one()
    ensures { ReportsOfGrowthAreOne }
{}

/// The growths of the rows have the sum of the bytes now less the bytes then, and so it is with blocks; the rows' new blocks and bytes
/// have the sums that the report says.
pub fn growths_add_up()
    ensures { GrowthsAddUp }
{}

/// What grew between some logs.
pub fn worked_growths()
    ensures { AreWorkedGrowths }
{}
