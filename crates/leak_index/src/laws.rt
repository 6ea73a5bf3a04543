//! Laws of the definitions, and worked words.
ghost use Rattle.std.specs.Prelude.{ℕ, ◌<◌, ◌≤◌, length};
ghost use Rattle.std.specs.List.{AllByRecursion};
ghost use Rattle.leak_blocks.specs.Span.{AreDisjoint};
ghost use Rattle.leak_index.specs.Hits.{Index, hits_of};
ghost use Rattle.leak_index.specs.Laws.{FewerHits, OneAtMost};
ghost use Rattle.leak_index.specs.Rows.{AreWorkedEnds, AreWorkedInner, AreWorkedWords};

/// A word leads to two blocks of a log at most.
pub fn at_most_two()
    ensures { (index : Index) (word : ℕ) →
        AreDisjoint index.blocks → length (hits_of index word) ≤ 2 }
{}

/// If ends are left out, a word leads to one block at most, and to none to which it doesn't lead otherwise.
pub fn ends_left_out()
    ensures one { OneAtMost }
    ensures fewer { FewerHits }
{}

/// The numbers of the blocks that a word leads to are below the number of blocks.
pub fn hits_are_blocks()
    ensures { (index : Index) (word : ℕ) →
        AllByRecursion (λ block. block < length index.blocks) (hits_of index word) }
{}

/// The blocks that some words lead to.
pub fn worked_words()
    ensures words { AreWorkedWords }
    ensures inner { AreWorkedInner }
    ensures ends { AreWorkedEnds }
{}
