//! Numbers and keys from the front of bytes, the highest byte first.
ghost use Rattle.std.specs.Prelude.{◌≡◌, ◌+◌, ◌*◌, ◌%◌, ◌^◌, ◌<◌, ◌≤◌, length};
ghost use Rattle.std.specs.Int.Digits.{number_from_digits};
ghost use Rattle.key.specs.Figures.{number_at};
ghost use Rattle.key.specs.Reads.{by_number, key_read};

use crate::identity::Key;
use crate::refusal::Refusal;

/// A number with one more byte behind it, as far as 64 bits hold it.
fn with_byte(number: u64, byte: u8) -> u64
    ensures { result ≡ (number * 256 + byte) % 2 ^ 64 }
{
    number.wrapping_mul(256).wrapping_add(u64::from(byte))
}

/// The number that the bytes write; of more than eight bytes, what 64 bits hold of it.
pub fn big_endian(bytes: &[u8]) -> u64
    ensures is { result ≡ number_from_digits 256 bytes.now % 2 ^ 64 }
    ensures whole { length bytes.now ≤ 8 → result ≡ number_from_digits 256 bytes.now }
    ensures below { length bytes.now ≤ 8 → result < 256 ^ length bytes.now }
{
    let mut number: u64 = 0;
    for byte in bytes {
        number = with_byte(number, *byte);
    }
    number
}

/// The number in so many bytes from a place on, as far as the bytes go and 64 bits hold it.
pub fn number_at(bytes: &[u8], at: usize, width: usize) -> u64
    ensures is { result ≡ number_at width at bytes.now % 2 ^ 64 }
    ensures whole { at + width ≤ length bytes.now → width ≤ 8 → result ≡ number_at width at bytes.now }
    ensures below { at + width ≤ length bytes.now → width ≤ 8 → result < 256 ^ width }
{
    let start = at.min(bytes.len());
    let end = at.saturating_add(width).min(bytes.len());
    big_endian(&bytes[start..end])
}

/// The key at the front of the input, which may go on after it.
pub fn read_key<K: Key>(input: &[u8]) -> Result<K, Refusal>
    ensures { by_number K.number result ≡ key_read K.WIDTH K.LIMIT input.now }
{
    if input.len() < K::WIDTH {
        return Err(Refusal::InputTooShort);
    }
    K::from_number(big_endian(&input[0..K::WIDTH])).ok_or(Refusal::OutOfRange)
}
