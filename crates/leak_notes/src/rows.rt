//! Worked answers of the definitions.

ghost use Rattle.leak_notes.specs.Rows.{AreAnswers};

/// The notes of the sample core, changed in one way each, have the answers that were worked out by hand.
pub fn worked_notes()
    ensures { AreAnswers }
{}
