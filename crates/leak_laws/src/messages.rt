//! Messages, for those who read them.

ghost use Rattle.leak_laws.specs.EscapedTexts.{EscapedReadsBack};

/// Two texts that are escaped to the same bytes are the same: so a path in a message can be read back.
pub fn escaped_texts_read_back()
    ensures { EscapedReadsBack }
{}
