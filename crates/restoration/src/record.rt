//! What a visitor register keeps of a subscriber.
ghost use Rattle.std.specs.Prelude.{◌≡◌, Some};
ghost use Rattle.restoration.specs.Records.{made, or_made, only_made, relocated, indicator_text};

use dialogue::SubscriberData;
use std::fmt;

/// Whether something that a record says may be believed.
#[derive(Clone, Copy, PartialEq, Eq, Debug)]
pub enum Indicator {
    NotConfirmed,
    Confirmed,
}

/// Where the handset was last seen. Either part is absent until it is told.
#[derive(Clone, Copy, PartialEq, Eq, Debug)]
pub struct Place {
    pub msc: Option<u8>,
    pub area: Option<u16>,
}

/// The record of one subscriber. Any fields make a record: what holds of them follows from the history.
#[derive(Clone, Copy, PartialEq, Eq, Debug)]
pub struct Record {
    /// The handset has been in radio contact since the record was made.
    pub radio: Indicator,
    /// The subscriber data came from the home register.
    pub data: Indicator,
    /// The home register knows that the subscriber is here.
    pub location: Indicator,
    pub place: Place,
    pub subscriber: SubscriberData,
}

impl fmt::Display for Indicator {
    ghost output = { λ i. Some (indicator_text i) };

    fn fmt<W: fmt::Write>(&self, f: &mut fmt::Formatter<W>) -> fmt::Result {
        f.write_str(match self {
            Indicator::NotConfirmed => "N",
            Indicator::Confirmed => "C",
        })
    }
}

impl Record {
    /// A record as it is made, its location as given.
    pub fn made(location: Indicator) -> Record
        ensures { result ≡ made location }
    {
        Record {
            radio: Indicator::NotConfirmed,
            data: Indicator::NotConfirmed,
            location,
            place: Place {
                msc: None,
                area: None,
            },
            subscriber: SubscriberData::default(),
        }
    }

    /// The record, or one newly made by a registration.
    pub fn or_made(old: Option<Record>) -> Record
        ensures { result ≡ or_made old }
    {
        old.unwrap_or(Record::made(Indicator::NotConfirmed))
    }

    /// The record that a registration makes, where there was none.
    pub fn only_made(old: Option<Record>) -> Option<Record>
        ensures { result ≡ only_made old }
    {
        old.is_none()
            .then_some(Record::made(Indicator::NotConfirmed))
    }

    /// The same record with its location no longer confirmed.
    pub fn unlocated(self) -> Record
        ensures { result ≡ relocated Indicator.NotConfirmed self }
    {
        Record {
            location: Indicator::NotConfirmed,
            ..self
        }
    }
}
