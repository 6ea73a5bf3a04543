//! A core that is read in one pass, of which only some words are kept, gives the answers of the whole core.

ghost use Rattle.leak_alike.specs.AlikeToMark.{MarksOfAlikeAreOne, PrunedAreAlike};
ghost use Rattle.leak_alike.specs.Listings.{ListingsAreOne};
ghost use Rattle.leak_alike.specs.OneHead.{FilesOfOneHeadAgree, RefusedOfOneHeadAreOne, ThreadsOfOneHeadAreOne};
ghost use Rattle.leak_alike.specs.SiftedCores.{RefusedOfSiftedAreOne, SearchesOfSiftedAreOne, SignsOfSiftedAreOne};
ghost use Rattle.leak_alike.specs.SiftedCores.{SiftedAreAlike, SiftedAreAlikeByLog, SiftedWordsAreKept};
ghost use Rattle.leak_alike.specs.SiftedHolders.{AnswersOfSiftedAreOne, HoldersOfSiftedAreOne};
ghost use Rattle.leak_alike.specs.SiftedHolders.{RefusedAnswersOfSiftedAreOne, RefusedHoldersOfSiftedAreOne};
ghost use Rattle.leak_alike.specs.SiftedRows.{AreWorkedSifted};

/// Two files that begin with one head and are as long agree in all that is read of them but words: faults, segments,
/// registers and what tells of stacks. So a search rejects both for the same reason, or neither.
pub fn files_of_one_head()
    ensures agree { FilesOfOneHeadAgree }
    ensures threads { ThreadsOfOneHeadAreOne }
    ensures refused { RefusedOfOneHeadAreOne }
{}

/// If a sieve with the live blocks of the log passes over the bytes behind a core's head, the core with the words that
/// it keeps is like the whole one, to every search that does not leave out dead stack. All words have to be behind the
/// head, in the order of their addresses.
pub fn sifted_cores_are_alike()
    ensures words { SiftedWordsAreKept }
    ensures alike { SiftedAreAlike }
    ensures by_log { SiftedAreAlikeByLog }
{}

/// So a search of the core with those words gives the report, the claims and the signs of the whole core. Whatever is
/// kept, it rejects the one core for the reason for which it rejects the other.
pub fn searches_of_sifted_cores()
    ensures found { SearchesOfSiftedAreOne }
    ensures signs { SignsOfSiftedAreOne }
    ensures refused { RefusedOfSiftedAreOne }
{}

/// All that a search goes by once it has read the words, what blocks and root words lead to among it, is the same list by
/// list, whether the core was held or sifted.
pub fn listings_are_one()
    ensures { ListingsAreOne }
{}

/// Once it is known which blocks fit, words of a sifted core that are outside the blocks can be let go: what is marked stays
/// the same, and so do heads and the numbers of the report, unless slack, dead stack or links to free chunks are left out.
pub fn pruned_cores_are_marked_alike()
    ensures marks { MarksOfAlikeAreOne }
    ensures alike { PrunedAreAlike }
{}

/// The report on who holds the memory is that of the whole core too, and so is each answer about chosen blocks: what
/// they hold, and who holds them. The one core is rejected for the reason for which the other is.
pub fn holders_of_sifted_cores()
    ensures holders { HoldersOfSiftedAreOne }
    ensures chosen { AnswersOfSiftedAreOne }
    ensures refused_holders { RefusedHoldersOfSiftedAreOne }
    ensures refused_chosen { RefusedAnswersOfSiftedAreOne }
{}

/// A core that can be sifted, one that can't, and what is kept of some words.
pub fn worked_sifted()
    ensures { AreWorkedSifted }
{}
