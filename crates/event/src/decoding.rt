//! Reading one event from the front of bytes.
ghost use Rattle.std.specs.Prelude.{◌≡◌};
ghost use Rattle.event.specs.Seen.{reading};
ghost use Rattle.event.specs.Decoding.{DecodingLaw, ExactlyLaid, decoded, read_coded, read_insert, read_end, read_reset};
ghost use Rattle.event.specs.Operands.{parsed};

use crate::events::{Event, GROUP_LENGTH};
use crate::operands::{read_contact, read_imsi, read_located};
use key::{HlrId, Refusal, number_at};

/// An event, and how many bytes it took.
#[derive(Clone, Copy, PartialEq, Eq, Debug)]
pub struct Decoded<'a> {
    pub event: Event<'a>,
    pub length: usize,
}

fn read_insert(operands: &[u8]) -> Result<Event<'_>, Refusal>
    ensures { parsed result ≡ read_insert operands.now }
{
    if operands.len() < 5 {
        return Err(Refusal::InputTooShort);
    }
    let dialogue = number_at(operands, 0, 4) as u32;
    let count = number_at(operands, 4, 1) as u8;
    if !(1..=6).contains(&count) {
        return Err(Refusal::OutOfRange);
    }
    let end = 5 + GROUP_LENGTH * usize::from(count);
    if operands.len() < end {
        return Err(Refusal::InputTooShort);
    }
    Ok(Event::Insert {
        dialogue,
        count,
        groups: &operands[5..end],
    })
}

fn read_end(operands: &[u8]) -> Result<Event<'_>, Refusal>
    ensures { parsed result ≡ read_end operands.now }
{
    if operands.len() < 5 {
        return Err(Refusal::InputTooShort);
    }
    let dialogue = number_at(operands, 0, 4) as u32;
    let outcome = number_at(operands, 4, 1) as u8;
    if outcome > 1 {
        return Err(Refusal::OutOfRange);
    }
    Ok(Event::End { dialogue, outcome })
}

fn read_reset(operands: &[u8]) -> Result<Event<'_>, Refusal>
    ensures { parsed result ≡ read_reset operands.now }
{
    if operands.len() < 9 {
        return Err(Refusal::InputTooShort);
    }
    let digits = number_at(operands, 0, 1) as u8;
    let value = number_at(operands, 1, 8);
    HlrId::new(digits, value)
        .map(|_| Event::Reset { digits, value })
        .ok_or(Refusal::OutOfRange)
}

/// The event of that code, from the bytes after the code.
fn read_coded(code: u8, operands: &[u8]) -> Result<Event<'_>, Refusal>
    ensures { parsed result ≡ read_coded code operands.now }
{
    // Each case is made after its `?`: a `map` by a case that may borrow the input is not covered by the prover.
    match code {
        0x01 => Ok(Event::ProvideRoamingNumber(read_imsi(operands)?)),
        0x02 => Ok(Event::CallInformation(read_imsi(operands)?)),
        0x03 => Ok(Event::ShortMessageV2(read_imsi(operands)?)),
        0x04 => Ok(Event::ShortMessageV1(read_imsi(operands)?)),
        0x05 => Ok(Event::LocationRequest(read_imsi(operands)?)),
        0x06 => Ok(read_located(operands)?.access()),
        0x07 => Ok(read_contact(operands)?.outgoing()),
        0x08 => Ok(read_located(operands)?.registration()),
        0x09 => Ok(Event::OpenUpdate(read_imsi(operands)?)),
        0x0A => read_insert(operands),
        0x0B => read_end(operands),
        0x0C => read_reset(operands),
        0x0D => Ok(Event::Cancel(read_imsi(operands)?)),
        0x0E => Ok(Event::Restart),
        _ => Err(Refusal::UnknownCode),
    }
}

/// The event at the front of the input, from its code on.
#[tactic(auto, unfolding(crate::specs::Decoding::decoded))]
fn parse(input: &[u8]) -> Result<Event<'_>, Refusal>
    ensures { parsed result ≡ decoded input.now }
{
    let [code, operands @ ..] = input else {
        return Err(Refusal::UnknownCode);
    };
    read_coded(*code, operands)
}

/// The event at the front of the input with its length.
fn read_front(input: &[u8]) -> Result<Decoded<'_>, Refusal>
    ensures { reading result ≡ decoded input.now }
{
    let event = parse(input)?;
    let length = event.length();
    Ok(Decoded { event, length })
}

/// The event at the front of the input. It is read exactly where the input begins with that event's bytes;
/// what follows them is not read.
pub fn decode(input: &[u8]) -> Result<Decoded<'_>, Refusal>
    ensures answer { reading result ≡ decoded input.now }
    ensures exactly_laid { ExactlyLaid input.now (reading result) }
{
    read_front(input)
}

/// Bytes have at most one reading, and it is the event whose form they begin with.
#[tactic(auto, using(crate::proofs::Exact::decoding_law_lem))]
pub fn decoding_law()
    ensures { DecodingLaw }
{}
