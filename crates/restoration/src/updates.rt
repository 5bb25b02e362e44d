//! Updates of subscriber data: opening a stand-alone one, and the end of any dialogue.
ghost use Rattle.std.specs.Prelude.{◌≡◌};
ghost use Rattle.restoration.specs.Numbers.{OutcomeSays};
ghost use Rattle.restoration.specs.Plans.{update_plan, resulting_data, data_at_end, well_ended, ill_ended, end_plan};

use crate::plan::Plan;
use crate::record::{Indicator, Record};
use dialogue::{Dialogue, Stage, SubscriberData};
use event::{Kind, Reply};
use key::Refusal;

/// How the home register ended a dialogue.
#[derive(Clone, Copy, PartialEq, Eq, Debug)]
pub enum Outcome {
    Well,
    NotWell,
}

// Of one shape with others: a conversion is written for its type, and no macro of our own may write it.
impl TryFrom<u8> for Outcome {
    type Error = Refusal;

    ghost try_from_gives = { OutcomeSays };

    fn try_from(number: u8) -> Result<Outcome, Refusal> {
        match number {
            0 => Ok(Outcome::Well),
            1 => Ok(Outcome::NotWell),
            _ => Err(Refusal::OutOfRange),
        }
    }
}

/// The home register opens a stand-alone update; `busy` tells whether one is open.
pub fn plan_update(old: Option<Record>, busy: bool) -> Plan
    ensures { result ≡ update_plan old busy }
{
    match (old, busy) {
        (None, _) => Plan::reply_only(Reply::UnidentifiedSubscriber),
        (Some(_), true) => Plan::reply_only(Reply::SystemFailure),
        (Some(_), false) => Plan {
            opens: Some(Kind::StandAlone),
            ..Plan::reply_only(Reply::Done)
        },
    }
}

/// The data that a good end leaves.
fn resulting_data(kind: Kind, draft: SubscriberData, old: Option<Record>) -> SubscriberData
    ensures { result ≡ resulting_data kind draft old }
{
    match kind {
        Kind::StandAlone => draft.over(old.map(|record| record.subscriber).unwrap_or_default()),
        Kind::RestoreData | Kind::UpdateLocation => draft,
    }
}

/// The data that a good end leaves, or the reply to an end that is not good.
fn data_at_end(
    dialogue: Dialogue,
    outcome: Outcome,
    old: Option<Record>,
) -> Result<SubscriberData, Reply>
    ensures { result ≡ data_at_end dialogue outcome old }
{
    let subscriber = resulting_data(dialogue.kind, dialogue.draft, old);
    match (outcome, dialogue.stage) {
        (Outcome::NotWell, _) => Err(Reply::SystemFailure),
        (Outcome::Well, Stage::Rejected) => Err(Reply::UnexpectedDataValue),
        (Outcome::Well, _) if subscriber.is_complete() => Ok(subscriber),
        (Outcome::Well, _) => Err(Reply::DataMissing),
    }
}

/// A good end confirms the data, and that of an Update Location the location too.
fn well_ended(kind: Kind, subscriber: SubscriberData, record: Record) -> Record
    ensures { result ≡ well_ended kind subscriber «record» }
{
    let location = match kind {
        Kind::UpdateLocation => Indicator::Confirmed,
        Kind::RestoreData | Kind::StandAlone => record.location,
    };
    Record {
        data: Indicator::Confirmed,
        location,
        subscriber,
        ..record
    }
}

/// A bad end of a stand-alone update leaves the data in doubt.
fn ill_ended(kind: Kind, record: Record) -> Option<Record>
    ensures { result ≡ ill_ended kind «record» }
{
    match kind {
        Kind::RestoreData | Kind::UpdateLocation => None,
        Kind::StandAlone => Some(Record {
            data: Indicator::NotConfirmed,
            ..record
        }),
    }
}

/// The end of a dialogue, as it stood.
pub fn plan_end(dialogue: Dialogue, outcome: Outcome, old: Option<Record>) -> Plan
    ensures { result ≡ end_plan dialogue outcome old }
{
    match data_at_end(dialogue, outcome, old) {
        Ok(subscriber) => Plan {
            kept: old.map(|record| well_ended(dialogue.kind, subscriber, record)),
            ..Plan::reply_only(Reply::Done)
        },
        Err(reply) => Plan {
            kept: old.and_then(|record| ill_ended(dialogue.kind, record)),
            ..Plan::reply_only(reply)
        },
    }
}
