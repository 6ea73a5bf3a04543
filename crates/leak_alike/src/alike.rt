//! Which words of a core matter neither to a search nor to an answer about holders.

ghost use Rattle.leak_alike.specs.Alike.{SearchesOfAlikeAreOne, SignsOfAlikeAreOne};
ghost use Rattle.leak_alike.specs.AlikeHolders.{AnswersOfAlikeAreOne, HoldersOfAlikeAreOne};
ghost use Rattle.leak_alike.specs.AlikeRefusals.{RefusedAnswersAreOne, RefusedHoldersAreOne, RefusedSearchesAreOne};
ghost use Rattle.leak_alike.specs.AlikeRows.{AreWorkedAlike};
ghost use Rattle.leak_alike.specs.AskedWords.{AskedAreNear};
ghost use Rattle.leak_alike.specs.Nowhere.{OutsideAreLikeZero, OutsideLeadNowhere, ZeroLeadsNowhere};

/// A word that leads to no live block can be replaced by any other such word: the report, the claims and the signs stay
/// the same. Words that a rule reads as something else than a pointer have to stay: malloc's sizes always, and where
/// links or dead stack are left out, the words that these rules read.
pub fn words_that_lead_nowhere()
    ensures found { SearchesOfAlikeAreOne }
    ensures signs { SignsOfAlikeAreOne }
{}

/// With such words replaced, the report on who holds the memory stays the same too, and so does each answer about
/// chosen blocks: what they hold, and who holds them.
pub fn holders_of_alike_cores()
    ensures holders { HoldersOfAlikeAreOne }
    ensures chosen { AnswersOfAlikeAreOne }
{}

/// If one of two such cores is refused, so is the other, for the same reason: by a search, by a report on who holds the
/// memory, and by a question about chosen blocks.
pub fn refusals_of_alike_cores()
    ensures found { RefusedSearchesAreOne }
    ensures holders { RefusedHoldersAreOne }
    ensures chosen { RefusedAnswersAreOne }
{}

/// A word below the first live block, or above the end of the last, leads to no live block, and 0 leads to none. So
/// whoever keeps a core's words can keep 0 for each word outside that range which no rule reads as something else.
pub fn words_outside_the_blocks()
    ensures outside { OutsideLeadNowhere }
    ensures zero { ZeroLeadsNowhere }
    ensures alike { OutsideAreLikeZero }
{}

/// The words that malloc's rules read as something else than a pointer are at fixed distances from the live blocks.
pub fn asked_words_are_near_blocks()
    ensures { AskedAreNear }
{}

/// Words and cores that are alike, and some that aren't; and for which words a rule asks.
pub fn worked_alike()
    ensures { AreWorkedAlike }
{}
