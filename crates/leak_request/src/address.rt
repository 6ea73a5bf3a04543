//! The address of a block that is asked for.

ghost use Rattle.std.specs.Prelude.{IfNone, IfSome, IsTrue, SomeIff, ℕ, ◌<◌};
ghost use Rattle.leak_request.specs.Address.{IsAddress, digit_value, is_digit};

/// How many digits an address has at most.
const MOST_DIGITS: usize = 16;

/// The address that the text writes: `0x` and 1 to 16 hexadecimal digits of either case.
pub(crate) fn address(text: &[u8]) -> Option<u64>
    ensures some { IfSome result (IsAddress text.now) }
    ensures none { IfNone result ((n : ℕ) → IsAddress text.now n → ⊥) }
{
    let [b'0', b'x', digits @ ..] = text else {
        return None;
    };
    if digits.is_empty() || digits.len() > MOST_DIGITS {
        return None;
    }
    let mut value = 0u64;
    for byte in digits {
        value = 16 * value + u64::from(digit(*byte)?);
    }
    Some(value)
}

/// The value of a hexadecimal digit.
fn digit(byte: u8) -> Option<u8>
    ensures value { SomeIff result (IsTrue (is_digit byte)) (digit_value byte) }
    ensures low { IfSome result (λ value. value < 16) }
{
    match byte {
        b'0'..=b'9' => Some(byte - b'0'),
        b'A'..=b'F' => Some(byte - b'A' + 10),
        b'a'..=b'f' => Some(byte - b'a' + 10),
        _ => None,
    }
}
