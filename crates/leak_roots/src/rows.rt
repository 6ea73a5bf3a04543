//! Worked answers of the definitions.

ghost use Rattle.leak_roots.specs.Rows.{AreAnswers};

/// The sample core has 539 root words: 27 registers and 512 words of its segment, 4 fewer with a block of 32 bytes. With a
/// vector entry it has 48 more. If its segment can't be written, it has the words of the segment only if such memory is
/// not left out. A place is inside spans if they hold each of its 8 bytes; one that is freed and in slack is left out once.
pub fn worked_roots()
    ensures { AreAnswers }
{}
