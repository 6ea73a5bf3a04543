//! Laws of searches. Each is a function that does nothing: its contract is the law.

ghost use Rattle.leak_search.specs.EndsLaw.{MarkedWithoutEnds, MarkedInTwoWithoutEnds};
ghost use Rattle.leak_search.specs.Laws.{MarkedWithLess, MarkedInTwoWithLess};

/// What is marked if more is left out is marked if less is. So each block that leaks if less is left out leaks
/// if more is, in one core and in two; and the fewest leak if nothing is left out.
pub fn leaked_stay_leaked()
    ensures one { MarkedWithLess }
    ensures two { MarkedInTwoWithLess }
{}

/// What is marked if ends of blocks are left out is marked with them. So each block that leaks without the option leaks
/// with it too, in one core and in two.
pub fn leaked_stay_leaked_without_ends()
    ensures one { MarkedWithoutEnds }
    ensures two { MarkedInTwoWithoutEnds }
{}
