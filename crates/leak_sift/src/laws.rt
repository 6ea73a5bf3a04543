//! Worked words, and worked siftings.
ghost use Rattle.leak_sift.specs.KeptRows.{AreWorkedEnds, AreWorkedPlaces, AreWorkedWords};
ghost use Rattle.leak_sift.specs.SiftedRows.{AreWorkedOffsets, AreWorkedOrders, AreWorkedSiftings, AreWorkedStates};

/// What is kept of some words, at some places.
pub fn worked_words()
    ensures words { AreWorkedWords }
    ensures places { AreWorkedPlaces }
    ensures ends { AreWorkedEnds }
{}

/// Where some bytes of a file lie in memory, what is kept of some words of it, what a sifting has after some bytes, and
/// which segments are orderly.
pub fn worked_siftings()
    ensures offsets { AreWorkedOffsets }
    ensures words { AreWorkedSiftings }
    ensures states { AreWorkedStates }
    ensures orders { AreWorkedOrders }
{}
