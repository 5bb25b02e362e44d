//! The operands of an event, from the bytes after its code.
ghost use Rattle.std.specs.Prelude.{◌≡◌};
ghost use Rattle.event.specs.Layout.{access, outgoing, registration};
ghost use Rattle.event.specs.Seen.{as_event};
ghost use Rattle.event.specs.Operands.{imsi_read, contact_read, located_read};

use crate::events::Event;
use key::{Imsi, Refusal, number_at, read_key};

/// What every contact of a handset begins with: who, whether authentication passed, through which exchange.
#[derive(Clone, Copy, PartialEq, Eq, Debug)]
pub struct Contact {
    pub imsi: u64,
    pub auth: u8,
    pub msc: u8,
}

/// A contact that tells the location area too.
#[derive(Clone, Copy, PartialEq, Eq, Debug)]
pub struct Located {
    pub contact: Contact,
    pub area: u16,
}

impl Contact {
    /// The contact as a request of the handset's own.
    pub fn outgoing(self) -> Event<'static>
        ensures { as_event result ≡ outgoing self.imsi self.auth self.msc }
    {
        let Contact { imsi, auth, msc } = self;
        Event::Outgoing { imsi, auth, msc }
    }
}

impl Located {
    /// The contact as the answer to a page or a search.
    pub fn access(self) -> Event<'static>
        ensures { as_event result ≡ access self.contact.imsi self.contact.auth self.contact.msc self.area }
    {
        let Contact { imsi, auth, msc } = self.contact;
        let area = self.area;
        Event::Access {
            imsi,
            auth,
            msc,
            area,
        }
    }

    // Beside `access`, since the events, whose form the project fixed, have two cases of these fields.
    /// The contact as a registration of the location.
    pub fn registration(self) -> Event<'static>
        ensures { as_event result ≡ registration self.contact.imsi self.contact.auth self.contact.msc self.area }
    {
        let Contact { imsi, auth, msc } = self.contact;
        let area = self.area;
        Event::Registration {
            imsi,
            auth,
            msc,
            area,
        }
    }
}

/// The IMSI that the operands begin with, as its number.
#[tactic(auto, unfolding(key::specs::Figures::number_at))]
pub fn read_imsi(operands: &[u8]) -> Result<u64, Refusal>
    ensures { result ≡ imsi_read operands.now }
{
    read_key::<Imsi>(operands).map(Imsi::number)
}

/// What the operands of a contact begin with.
pub fn read_contact(operands: &[u8]) -> Result<Contact, Refusal>
    ensures { result ≡ contact_read operands.now }
{
    if operands.len() < 10 {
        return Err(Refusal::InputTooShort);
    }
    let imsi = read_imsi(operands)?;
    let auth = number_at(operands, 8, 1) as u8;
    let msc = number_at(operands, 9, 1) as u8;
    if auth > 1 {
        return Err(Refusal::OutOfRange);
    }
    Ok(Contact { imsi, auth, msc })
}

/// What the operands of a contact with its area begin with.
pub fn read_located(operands: &[u8]) -> Result<Located, Refusal>
    ensures { result ≡ located_read operands.now }
{
    if operands.len() < 12 {
        return Err(Refusal::InputTooShort);
    }
    let contact = read_contact(operands)?;
    let area = number_at(operands, 10, 2) as u16;
    Ok(Located { contact, area })
}
