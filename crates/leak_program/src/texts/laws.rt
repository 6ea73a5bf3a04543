//! A law of the texts.

ghost use Rattle.leak_program.specs.TextLaws.{TextsAreShown};

/// No text of an error has a control character, except clap's own, and so none has a line end.
pub fn texts_are_shown()
    ensures { TextsAreShown }
{}
