//! Laws of pieces and places, for crates that mark from pieces.

ghost use Rattle.leak_roots.specs.Laws.{PiecesHoldAllWords, PiecesGiveAll, PlacesHoldRootWords};

/// The pieces of a cut hold the words at all places, in order, and the places of a core hold its root words.
pub fn pieces_hold_root_words()
    ensures words { PiecesHoldAllWords }
    ensures made { PiecesGiveAll }
    ensures roots { PlacesHoldRootWords }
{}
