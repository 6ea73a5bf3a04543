//! What tells most texts apart.
ghost use Rattle.std.specs.Prelude.{◌≡◌};
ghost use Rattle.leak_report.specs.Meeting.{tail_of};

use byteorder::{ByteOrder, LittleEndian};

/// The last eight bytes of a text as a number, or how many bytes it has, if they are fewer.
///
/// Own rule: callers of one file begin alike, and differ in their last bytes, those of an address.
pub(crate) fn tail(text: &[u8]) -> u64
    ensures { result ≡ tail_of text.now }
{
    if text.len() < 8 {
        text.len() as u64
    } else {
        LittleEndian::read_u64(&text[text.len() - 8..])
    }
}
