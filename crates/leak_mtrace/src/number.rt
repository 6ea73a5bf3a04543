//! The numbers of a line.
ghost use Rattle.std.specs.Prelude.{◌≡◌, ◌<◌, length, IsTrue, SomeIff};
ghost use Rattle.leak_mtrace.specs.Decided.{Decides};
ghost use Rattle.leak_mtrace.specs.Number.{is_digit, digit_value, IsHex, IsAddress, IsSize, IsPair, IsPairAround};

use memchr::memchr;

/// What each byte counts as a digit, or 255.
///
/// Own rule: a branch on the kind of digit is mispredicted where an address mixes digits and letters, so there is none.
static DIGITS: [u8; 256] = [
    255, 255, 255, 255, 255, 255, 255, 255, 255, 255, 255, 255, 255, 255, 255, 255, 255, 255, 255,
    255, 255, 255, 255, 255, 255, 255, 255, 255, 255, 255, 255, 255, 255, 255, 255, 255, 255, 255,
    255, 255, 255, 255, 255, 255, 255, 255, 255, 255, 0, 1, 2, 3, 4, 5, 6, 7, 8, 9, 255, 255, 255,
    255, 255, 255, 255, 255, 255, 255, 255, 255, 255, 255, 255, 255, 255, 255, 255, 255, 255, 255,
    255, 255, 255, 255, 255, 255, 255, 255, 255, 255, 255, 255, 255, 255, 255, 255, 255, 10, 11,
    12, 13, 14, 15, 255, 255, 255, 255, 255, 255, 255, 255, 255, 255, 255, 255, 255, 255, 255, 255,
    255, 255, 255, 255, 255, 255, 255, 255, 255, 255, 255, 255, 255, 255, 255, 255, 255, 255, 255,
    255, 255, 255, 255, 255, 255, 255, 255, 255, 255, 255, 255, 255, 255, 255, 255, 255, 255, 255,
    255, 255, 255, 255, 255, 255, 255, 255, 255, 255, 255, 255, 255, 255, 255, 255, 255, 255, 255,
    255, 255, 255, 255, 255, 255, 255, 255, 255, 255, 255, 255, 255, 255, 255, 255, 255, 255, 255,
    255, 255, 255, 255, 255, 255, 255, 255, 255, 255, 255, 255, 255, 255, 255, 255, 255, 255, 255,
    255, 255, 255, 255, 255, 255, 255, 255, 255, 255, 255, 255, 255, 255, 255, 255, 255, 255, 255,
    255, 255, 255, 255, 255, 255, 255, 255, 255, 255, 255, 255, 255, 255, 255, 255, 255, 255, 255,
    255, 255, 255, 255,
];

/// The value of a hexadecimal digit.
fn digit(byte: u8) -> Option<u8>
    ensures { SomeIff result (IsTrue (is_digit byte)) (digit_value byte) }
{
    let value = DIGITS[byte as usize];
    if value < 16 { Some(value) } else { None }
}

/// The value of `0x` and 1 to 16 digits.
fn hex(text: &[u8]) -> Option<u64>
    ensures { Decides (IsHex text.now) result }
{
    let [b'0', b'x', digits @ ..] = text else {
        return None;
    };
    if digits.is_empty() || digits.len() > 16 {
        return None;
    }
    let mut value = 0u64;
    for byte in digits {
        value = 16 * value + u64::from(digit(*byte)?);
    }
    Some(value)
}

/// The value of an address: `(nil)` or hexadecimal.
pub fn address(text: &[u8]) -> Option<u64>
    ensures { Decides (IsAddress text.now) result }
{
    if text == b"(nil)".as_slice() {
        Some(0)
    } else {
        hex(text)
    }
}

/// The value of a size: `0` or hexadecimal.
pub fn size(text: &[u8]) -> Option<u64>
    ensures { Decides (IsSize text.now) result }
{
    if text == b"0".as_slice() {
        Some(0)
    } else {
        hex(text)
    }
}

/// The place of the space behind an address of 12 digits, which most addresses of heaps have.
const USUAL_SPACE: usize = 14;

/// The address before the place, and the size behind it.
fn pair_around(text: &[u8], space: usize) -> Option<(u64, u64)>
    requires { space < length text.now }
    ensures { Decides (λ p. IsPairAround text.now space p.0 p.1) result }
{
    let addr = address(&text[..space])?;
    let size = size(&text[space + 1..])?;
    Some((addr, size))
}

/// An address, a space and a size.
pub fn address_and_size(text: &[u8]) -> Option<(u64, u64)>
    ensures { Decides (λ p. IsPair text.now p.0 p.1) result }
{
    if text.len() > USUAL_SPACE && text[USUAL_SPACE] == b' ' {
        if let Some(pair) = pair_around(text, USUAL_SPACE) {
            return Some(pair);
        }
    }
    let space = memchr(b' ', text)?;
    pair_around(text, space)
}
