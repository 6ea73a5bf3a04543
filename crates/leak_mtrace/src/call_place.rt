//! Where the place of a call ends.
ghost use Rattle.std.specs.Prelude.{◌≡◌, ◌+◌, ◌<◌, length};
ghost use Rattle.leak_mtrace.specs.CallPlace.{is_sign, is_spot, IsLastSpot, IsPlaceEnd};

use memchr::memrchr;

/// Whether a call begins with this byte.
fn is_call_sign(byte: u8) -> bool
    ensures { result ≡ is_sign byte }
{
    matches!(byte, b'+' | b'-' | b'<' | b'>' | b'!')
}

/// Whether there is a space, and a sign and a space follow it.
fn is_spot(text: &[u8], at: usize) -> bool
    requires { at + 2 < length text.now }
    ensures { result ≡ is_spot text.now at }
{
    text[at] == b' ' && is_call_sign(text[at + 1]) && text[at + 2] == b' '
}

/// The last space that a sign and a space follow. It is searched for from the end: most lines have it near theirs.
fn last_spot(text: &[u8]) -> Option<usize>
    ensures { IsLastSpot text.now result }
{
    let mut end = text.len().saturating_sub(2);
    while end > 0 {
        end -= 1;
        if is_spot(text, end) {
            return Some(end);
        }
    }
    None
}

/// Where the place ends, in the line's text after `@ `.
pub fn place_end(text: &[u8]) -> Option<usize>
    ensures { IsPlaceEnd text.now result }
{
    match memrchr(b']', text) {
        Some(at) => Some(at + 1),
        None => last_spot(text),
    }
}
