//! One event of each code, and what decoding tells of bytes.
use event::{Event, decode};
use key::Refusal;

/// The codes are 1 to so many.
pub const CODES: u8 = 14;

/// An event of that code, within its ranges.
pub fn sample(code: u8) -> &'static [u8] {
    match code {
        0x01 => b"\x01\x00\x00\x00\xeb\x28\xb0\xf4\x01",
        0x02 => b"\x02\x00\x00\x00\xeb\x28\xb0\xf4\x01",
        0x03 => b"\x03\x00\x00\x00\xeb\x28\xb0\xf4\x01",
        0x04 => b"\x04\x00\x00\x00\xeb\x28\xb0\xf4\x01",
        0x05 => b"\x05\x00\x00\x00\xeb\x28\xb0\xf4\x01",
        0x06 => b"\x06\x00\x00\x00\xeb\x28\xb0\xf4\x01\x01\x07\x00\x10",
        0x07 => b"\x07\x00\x00\x00\xeb\x28\xb0\xf4\x01\x01\x07",
        0x08 => b"\x08\x00\x00\x00\xeb\x28\xb0\xf4\x01\x00\x07\x00\x11",
        0x09 => b"\x09\x00\x00\x00\xeb\x28\xb0\xf4\x01",
        0x0A =>
            b"\x0a\x00\x00\x00\x01\x02\x41\x00\x00\x04\x78\x63\x86\x80\x4e\x0a\x00\x42\x00\x00\x00\x11\x00\x00\x00\x21\x00\x00",
        0x0B => b"\x0b\x00\x00\x00\x01\x00",
        0x0C => b"\x0c\x05\x00\x00\x00\x00\x00\x00\x00\x65",
        0x0D => b"\x0d\x00\x00\x00\xeb\x28\xb0\xf4\x01",
        0x0E => b"\x0e",
        _ => b"",
    }
}

/// How many bytes the event at the front takes, or why there is none.
pub fn told(input: &[u8]) -> Result<usize, Refusal> {
    decode(input).map(|decoded| decoded.length)
}

/// The code of the event that the input is read as.
pub fn code_read(input: &[u8]) -> Result<u8, Refusal> {
    decode(input).map(|decoded| code_of(&decoded.event))
}

fn code_of(event: &Event<'_>) -> u8 {
    match event {
        Event::ProvideRoamingNumber(_) => 1,
        Event::CallInformation(_) => 2,
        Event::ShortMessageV2(_) => 3,
        Event::ShortMessageV1(_) => 4,
        Event::LocationRequest(_) => 5,
        Event::Access { .. } => 6,
        Event::Outgoing { .. } => 7,
        Event::Registration { .. } => 8,
        Event::OpenUpdate(_) => 9,
        Event::Insert { .. } => 10,
        Event::End { .. } => 11,
        Event::Reset { .. } => 12,
        Event::Cancel(_) => 13,
        Event::Restart => 14,
    }
}
