//! Laws of claims, over the definitions alone. A caller of one gets its clauses; the bodies are empty.
ghost use Rattle.leak_marks.specs.Halves.{HalvesAreKept, PartsInTurnAreKept, RoundsAreKept, RoundsMakeARun};
ghost use Rattle.leak_marks.specs.Laws.{AttemptsAreReach, ListsAreFirstAttempts, ListsPartitionReach};
ghost use Rattle.leak_marks.specs.Retraces.{RetraceIsWhole};
ghost use Rattle.leak_marks.specs.Rounds.{Begins, GoesOn, Ends, StepsMakeARun};
ghost use Rattle.leak_marks.specs.Stacks.{ItemsAreKept, NothingIsKept, OwnBlocksAreKept};

/// What every lawful, complete run comes to, with any number of workers in any interleaving.
pub fn whole_runs()
    ensures reach { AttemptsAreReach }
    ensures first { ListsAreFirstAttempts }
    ensures partition { ListsPartitionReach }
{}

/// What is marked from a start comes to what is marked of all (Boehm, Demers, Shenker, PLDI 1991).
pub fn retraces()
    ensures { RetraceIsWhole }
{}

/// Steps in which workers keep their promise make a lawful run, and a complete one if nothing waits.
pub fn steps()
    ensures begins { Begins }
    ensures goes_on { GoesOn }
    ensures ends { Ends }
    ensures all { StepsMakeARun }
    ensures rounds { RoundsMakeARun }
{}

/// Halves of a step, and parts of it in turn, that keep their promise keep that of the step.
pub fn halves()
    ensures beside { HalvesAreKept }
    ensures in_turn { PartsInTurnAreKept }
    ensures rounds { RoundsAreKept }
{}

/// A worker that scans items, and then blocks that it claimed, keeps the promise of a step: what it claims is a target
/// of an item or of an earlier claim of its list, and what it scanned is no longer left.
pub fn stacks()
    ensures nothing { NothingIsKept }
    ensures items { ItemsAreKept }
    ensures own { OwnBlocksAreKept }
{}
