//! Bytes in hexadecimal.
ghost use Rattle.std.specs.Prelude.{◌≡◌};
ghost use Rattle.journal.specs.Hex.{digit_value, pair_value, written};

use crate::fault::Fault;
use std::alloc::Global;
use std::str::SplitWhitespace;

/// The value of a hexadecimal digit, in capital or small letters.
fn digit(c: u8) -> Option<u8>
    ensures { result ≡ digit_value c }
{
    char::from(c).to_digit(16).map(|value| value as u8)
}

/// The byte that two digits write, the high one first.
pub fn hex_pair(high: u8, low: u8) -> Option<u8>
    ensures { result ≡ pair_value high low }
{
    Some(16 * digit(high)? + digit(low)?)
}

/// The byte of a pair of digits, which the last digit may lack.
fn byte_of(pair: &[u8]) -> Result<u8, Fault>
    ensures { result ≡ written pair.now }
{
    match pair {
        [high, low] => hex_pair(*high, *low).ok_or(Fault::Hexadecimal),
        _ => Err(Fault::Hexadecimal),
    }
}

/// The bytes that words write. A pair of digits may stand in two words.
// A pair is read as soon as it is whole, so that a long line takes no memory for its digits.
pub(crate) fn read_bytes(heap: Global, words: SplitWhitespace<'_>) -> Result<Vec<u8>, Fault> {
    let mut bytes = Vec::new(heap);
    let mut half = None;
    for digit in words.flat_map(|word| word.bytes()) {
        half = match half {
            Some(high) => {
                bytes.push(byte_of(&[high, digit])?)?;
                None
            }
            None => Some(digit),
        };
    }
    if let Some(digit) = half {
        byte_of(&[digit])?;
    }
    Ok(bytes)
}
