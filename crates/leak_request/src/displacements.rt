//! The list of `--displace`.

ghost use Rattle.std.specs.Prelude.{◌≡◌, ◌∷◌, ◌<◌, IsTrue, Some, SomeIff, IfOk, IfErr, IfSome, length, ◌==◌, position};
ghost use Rattle.leak_index.specs.Readings.{listed_by};
ghost use Rattle.leak_request.specs.Displacements.{IsListed, IsNextDigit, decimal_value, is_number};
ghost use Rattle.leak_request.specs.Displacements.{displace_fault_of, items_after, items_of, next_value};

use crate::fault::DisplaceFault;
use leak_index::Reading;

/// One value more than a reading has at most: this many show that there are too many.
const KEPT: usize = 17;

/// How many digits a number has at most: as many as `u64::MAX`.
const MOST_DIGITS: usize = 20;

/// Reads decimal numbers between commas as distances from a block's start, in bytes.
///
/// Own rule: a number has 1 to 20 digits, so zeros may lead. An empty text is one empty item.
pub fn read_displace(text: &[u8]) -> Result<Reading, DisplaceFault>
    ensures ok { IfOk result (λ reading. IsListed text.now (listed_by reading)) }
    ensures refused { IfErr result (λ fault. displace_fault_of text.now ≡ Some fault) }
{
    let mut values = [0; KEPT];
    let mut count = 0;
    let mut rest = Some(text);
    'items: while let Some(left) = rest {
        let (item, after) = cut(left);
        let Some(value) = number(item) else {
            return Err(DisplaceFault::Number(count));
        };
        if count < KEPT {
            values[count] = value;
        }
        count += 1;
        rest = after;
    }
    match Reading::displaced(&values[..count.min(KEPT)]) {
        Ok(reading) => Ok(reading),
        Err(error) => Err(DisplaceFault::Reading(error)),
    }
}

/// The first item, and what follows its comma, if there is one.
fn cut(text: &[u8]) -> (&[u8], Option<&[u8]>)
    ensures items { items_of text.now ≡ result.0.now ∷ items_after result.1 }
    ensures shorter { IfSome result.1 (λ after. length after.now < length text.now) }
{
    match comma_in(text) {
        Some(comma) => (&text[..comma], Some(&text[comma + 1..])),
        None => (text, None),
    }
}

/// Where the first comma is.
fn comma_in(text: &[u8]) -> Option<usize>
    ensures { result ≡ position (λ byte. byte == 44) text.now }
{
    text.iter().position(|byte| *byte == b',')
}

/// The value of 1 to 20 decimal digits, if it is under 2^64.
fn number(item: &[u8]) -> Option<u64>
    ensures { SomeIff result (IsTrue (is_number item.now)) (decimal_value item.now) }
{
    if item.is_empty() || item.len() > MOST_DIGITS {
        return None;
    }
    let mut value = 0u64;
    for byte in item {
        value = with_digit(value, *byte)?;
    }
    Some(value)
}

/// The number with one more digit at its end, if it is under 2^64.
fn with_digit(value: u64, byte: u8) -> Option<u64>
    ensures { SomeIff result (IsNextDigit value byte) (next_value value byte) }
{
    if !byte.is_ascii_digit() {
        return None;
    }
    value.checked_mul(10)?.checked_add(u64::from(byte - b'0'))
}
