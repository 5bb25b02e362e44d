//! Contacts of a handset: Access, Outgoing and Registration.
ghost use Rattle.std.specs.Prelude.{◌≡◌};
ghost use Rattle.restoration.specs.Numbers.{AuthSays};
ghost use Rattle.restoration.specs.Plans.{contact_plan, access_plan, outgoing_plan, registration_plan};

use crate::plan::{Plan, unless_open};
use crate::record::{Indicator, Place, Record};
use event::{Handling, Kind, Reply};
use key::Refusal;

/// How authentication went.
#[derive(Clone, Copy, PartialEq, Eq, Debug)]
pub enum Auth {
    Failed,
    /// It passed, or was not needed.
    Passed,
}

// Of one shape with others: a conversion is written for its type, and no macro of our own may write it.
impl TryFrom<u8> for Auth {
    type Error = Refusal;

    ghost try_from_gives = { AuthSays };

    fn try_from(number: u8) -> Result<Auth, Refusal> {
        match number {
            0 => Ok(Auth::Failed),
            1 => Ok(Auth::Passed),
            _ => Err(Refusal::OutOfRange),
        }
    }
}

/// A contact with a record: `only` is what is kept where authentication failed.
// `wanted` and `busy` come as they are: no dialogue opens where authentication failed, whatever they say.
fn plan_contact(
    only: Option<Record>,
    record: Record,
    auth: Auth,
    place: Place,
    wanted: bool,
    busy: bool,
) -> Plan
    ensures { result ≡ contact_plan only «record» auth place wanted busy }
{
    match auth {
        Auth::Failed => Plan {
            kept: only,
            ..Plan::reply_only(Reply::IllegalSubscriber)
        },
        Auth::Passed => Plan {
            kept: Some(Record {
                radio: Indicator::Confirmed,
                place,
                ..record
            }),
            reply: Reply::Done,
            handling: Handling::Nothing,
            opens: unless_open(wanted, busy, Kind::UpdateLocation),
        },
    }
}

// The operands of a contact stay apart: each goes to another field at once, and Outgoing tells no area.
/// The handset answered a page or a search; `busy` tells whether Update Location is open.
pub fn plan_access(old: Option<Record>, auth: Auth, msc: u8, area: u16, busy: bool) -> Plan
    ensures { result ≡ access_plan old auth msc area busy }
{
    let Some(record) = old else {
        return Plan::reply_only(Reply::UnidentifiedSubscriber);
    };
    let place = Place {
        msc: Some(msc),
        area: Some(area),
    };
    let untold = record.location == Indicator::NotConfirmed;
    plan_contact(None, record, auth, place, untold, busy)
}

/// The handset asks for a service, through an exchange, which tells nothing of its area.
pub fn plan_outgoing(old: Option<Record>, auth: Auth, msc: u8, busy: bool) -> Plan
    ensures { result ≡ outgoing_plan old auth msc busy }
{
    let Some(record) = old else {
        return Plan::reply_only(Reply::UnidentifiedSubscriber);
    };
    if record.data == Indicator::NotConfirmed {
        return Plan::reply_only(Reply::UnidentifiedSubscriber);
    }
    let place = Place {
        msc: Some(msc),
        ..record.place
    };
    let wanted = record.location == Indicator::NotConfirmed;
    plan_contact(None, record, auth, place, wanted, busy)
}

/// The handset registers: its record is made where there is none.
pub fn plan_registration(old: Option<Record>, auth: Auth, msc: u8, area: u16, busy: bool) -> Plan
    ensures { result ≡ registration_plan old auth msc area busy }
{
    let record = Record::or_made(old);
    let only = Record::only_made(old);
    let place = Place {
        msc: Some(msc),
        area: Some(area),
    };
    let wanted = record.location == Indicator::NotConfirmed
        || record.data == Indicator::NotConfirmed;
    plan_contact(only, record, auth, place, wanted, busy)
}
