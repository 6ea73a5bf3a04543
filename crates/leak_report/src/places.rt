//! Numbers by which texts are in order, so that most pairs of texts are compared without looking at their bytes.
ghost use Rattle.std.specs.Prelude.{◌≡◌, ◌<◌, ◌≤◌, length, slice_index_or, IfSome};
ghost use Rattle.leak_report.specs.Places.{number_of, place_of};
ghost use Rattle.leak_report.specs.Totals.{AreLeaksIn};

use crate::leaked::Leak;
use crate::lines::caller_text;

/// The byte at a place, or 0 if the text is shorter.
fn byte(text: &[u8], i: usize) -> u64
    ensures value { result ≡ slice_index_or text.now i 0 }
    ensures small { result < 256 }
{
    match text.get(i) {
        Some(byte) => u64::from(*byte),
        None => 0,
    }
}

/// The first eight bytes as a number, the first byte the highest.
fn number(text: &[u8]) -> u64
    ensures { result ≡ number_of 8 0 text.now }
{
    byte(text, 0) * 0x100_0000_0000_0000
        + byte(text, 1) * 0x1_0000_0000_0000
        + byte(text, 2) * 0x100_0000_0000
        + byte(text, 3) * 0x1_0000_0000
        + byte(text, 4) * 0x100_0000
        + byte(text, 5) * 0x1_0000
        + byte(text, 6) * 0x100
        + byte(text, 7)
}

/// The place of a text among those that begin with the prefix, by the eight bytes after it. A text below all of these
/// has place 0, and one above them the greatest number.
pub fn place(prefix: &[u8], text: &[u8]) -> u64
    ensures { result ≡ place_of prefix.now text.now }
{
    for (i, byte) in prefix.iter().enumerate() {
        if text.len() <= i || text[i] < *byte {
            return 0;
        }
        if *byte < text[i] {
            return u64::MAX;
        }
    }
    number(&text[prefix.len()..])
}

/// How many bytes both begin with, if a colon is among them, or the whole of the first.
fn shared(first: &[u8], text: &[u8]) -> Option<usize>
    ensures { IfSome result (λ n. n ≤ length first.now) }
{
    let mut named = false;
    for (i, byte) in first.iter().enumerate() {
        if text.len() <= i || text[i] != *byte {
            return if named { Some(i) } else { None };
        }
        if *byte == b':' {
            named = true;
        }
    }
    Some(first.len())
}

/// How many leaked blocks [`prefix_of`] looks at; at most twice as many.
const SAMPLE: usize = 2000;

/// The bytes that the callers of one file begin with, by which [`place`] tells apart the most. It looks at some of the
/// leaked blocks, evenly spread among them.
///
/// Own rule: the file is that of the first leaked block with a caller, and callers of other files are passed over. The
/// places are in order by any prefix.
pub fn prefix_of<'a>(leaks: &[Leak], log: &'a [u8]) -> &'a [u8]
    requires { AreLeaksIn log.now leaks.now }
{
    let distance = leaks.len() / SAMPLE + 1;
    let mut prefix: &[u8] = b"?";
    let mut left = 0;
    for leak in leaks {
        if left == 0 {
            left = distance;
            prefix = shared_prefix(prefix, caller_text(log, leak.block.caller));
        }
        left -= 1;
    }
    prefix
}

/// What a prefix and a text both begin with, if both are of one file; for the prefix of no caller, the text.
fn shared_prefix<'a>(prefix: &'a [u8], text: &'a [u8]) -> &'a [u8] {
    if prefix.len() <= 1 {
        return text;
    }
    match shared(prefix, text) {
        Some(n) => &prefix[..n],
        None => prefix,
    }
}
