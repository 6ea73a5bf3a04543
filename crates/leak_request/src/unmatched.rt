//! What clap answers if it has no matches.

ghost use Rattle.std.specs.Prelude.{◌≡◌, ◌≢◌, IfErr, IfOk};
ghost use Rattle.clap.specs.Words.{kind_of};
ghost use Rattle.leak_request.specs.Requests.{IsText};
ghost use Rattle.leak_request.specs.Unmatched.{IsMistake, IsShownText};

use crate::command_line::command;
use crate::escaping::push_escaped;
use crate::fault::UsageFault;
use crate::options::Request;
use clap::Error;
use clap::error::ErrorKind;
use std::alloc::{AllocError, Global};

/// The text that the words ask for, help or the version, or what is wrong with them.
pub(crate) fn unmatched(
    alloc: Global,
    words: &[String],
    error: &Error,
) -> Result<Request, UsageFault>
    ensures asked { IfOk result (λ r. IsShownText r (kind_of error.now)) }
    ensures refused { IfErr result (λ f. IsMistake f (kind_of error.now)) }
{
    if error.kind() == ErrorKind::OutOfMemory {
        return Err(UsageFault::NoMemory);
    }
    if error.use_stderr() {
        return Err(UsageFault::Words(mistake(alloc, words, error)?));
    }
    Ok(Request::Text(error.to_string(alloc)?))
}

/// What clap says is wrong with the words.
///
/// It shows words as they are. One with a control character could forge a line, so it is escaped before clap sees it.
fn mistake(alloc: Global, words: &[String], error: &Error) -> Result<String, AllocError> {
    if !words.iter().any(|word| has_control(word.as_bytes())) {
        return error.to_string(alloc);
    }
    let mut shown = Vec::with_capacity(alloc, words.len())?;
    for word in words {
        shown.push(escaped(alloc, word)?)?;
    }
    match command(alloc)?.try_get_matches_from(shown.as_slice()) {
        Ok(_) => "bad arguments".to_string(alloc),
        Err(error) => error.to_string(alloc),
    }
}

/// Whether the text has a control character.
fn has_control(text: &[u8]) -> bool {
    text.iter().any(|byte| byte.is_ascii_control())
}

/// The text with its control characters and backslashes escaped.
fn escaped(alloc: Global, text: &str) -> Result<String, AllocError> {
    let mut bytes = Vec::new(alloc);
    push_escaped(&mut bytes, text.as_bytes())?;
    match String::from_utf8(bytes) {
        Ok(text) => Ok(text),
        // Escapes are ASCII, and all else stays.
        Err(_) => "?".to_string(alloc),
    }
}
