//! The key by which a text is found.
ghost use Rattle.std.specs.Prelude.{◌≡◌, OnOk};
ghost use Rattle.leak_texts.specs.Finding.{tail_of, IsKeyOf};

use byteorder::{ByteOrder, LittleEndian};
use std::alloc::AllocError;

/// The tail of a text, and the text.
///
/// Own rule: callers of one file begin alike, so the tail goes first. It is compared without following the text, and
/// tells most texts apart.
pub(crate) type Key = (u64, Vec<u8>);

/// The last eight bytes of a text as a number, or how many bytes it has, if they are fewer.
///
/// Own rule: callers of one file begin alike, and differ in their last bytes, those of an address.
pub(crate) fn tail(text: &[u8]) -> u64
    ensures { result ≡ tail_of text.now }
{
    if text.len() < 8 {
        text.len() as u64
    } else {
        LittleEndian::read_u64(&text[text.len() - 8..])
    }
}

/// Writes a text's key in place of the one that is there.
pub(crate) fn write_key(key: &mut Key, text: &[u8]) -> Result<(), AllocError>
    ensures { OnOk result (IsKeyOf key.new text.now) }
{
    key.0 = tail(text);
    key.1.clear();
    key.1.extend_from_slice(text)
}

#[cfg(test)]
mod tests {
    use super::{tail, write_key};
    use std::test::*;

    #[test]
    fn the_tail_is_of_the_last_eight_bytes(rt: HostRuntime) -> Result<(), Fail> {
        assert_eq!(rt; tail(b""), 0);
        assert_eq!(rt; tail(b"abcdefg"), 7);
        assert_eq!(rt; tail(&[9, 1, 0, 0, 0, 0, 0, 0, 2]), 0x0200_0000_0000_0001);
        Ok(())
    }

    #[test]
    fn a_key_replaces_the_one_before(rt: HostRuntime) -> Result<(), Fail> {
        let mut key = (0, Vec::new(rt.alloc()));
        write_key(&mut key, b"abc")?;
        assert_eq!(rt; key.0, 3);
        assert_eq!(rt; key.1.as_slice(), b"abc".as_slice());
        write_key(&mut key, b"d")?;
        assert_eq!(rt; key.0, 1);
        assert_eq!(rt; key.1.as_slice(), b"d".as_slice());
        Ok(())
    }
}
