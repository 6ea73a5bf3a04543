//! Which blocks leak if less is left out, by another reading, and if there is an earlier core.

ghost use Rattle.leak_laws.specs.Leaks.{LeakedInOneStay, LeakedInTwoStay, LeakedOfTwoAreOfOne};

/// A report names each leaked block that the report of the same bytes names if less is left out (freed memory, links, slack, dead stack, memory
/// that can't be written), ends count, or the list of displacements has more in it, or is none: in one core, and in two.
pub fn reported_stay_reported()
    ensures one { LeakedInOneStay }
    ensures two { LeakedInTwoStay }
{}

/// The report of two cores names no leaked block that the report of the later core alone, by the same options, doesn't name.
pub fn earlier_cores_keep_blocks()
    ensures { LeakedOfTwoAreOfOne }
{}
