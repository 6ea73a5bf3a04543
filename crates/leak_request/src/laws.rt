//! A law of escaped text.

ghost use Rattle.leak_request.specs.Escaped.{EscapedIsShown};

/// Text from outside has no control character once it is escaped, and so no line end.
pub fn escaped_text_is_shown()
    ensures { EscapedIsShown }
{}
