//! Laws of the definitions, and worked cores. Each is a function that does nothing: its contract is the law.
ghost use Rattle.leak_later.specs.Kept.{AbsentAreFresh};
ghost use Rattle.leak_later.specs.Retrace.{SameWordsLeadWithin};
ghost use Rattle.leak_later.specs.Examples.{AreWorkedCores};

/// If one log begins another, a block whose line is that of no live block of the first comes after the first.
pub fn absent_are_fresh()
    ensures { AbsentAreFresh }
{}

/// A word of a kept block on a page that does not differ leads to kept and fresh blocks alone.
pub fn same_words_lead_within()
    ensures { SameWordsLeadWithin }
{}

/// Kept and fresh blocks, differing pages and reread words of some logs and cores.
pub fn worked_cores()
    ensures { AreWorkedCores }
{}
