//! Subscriber data: what a home register tells of a subscriber, group by group.
ghost use Rattle.std.specs.Prelude.{◌≡◌};
ghost use Rattle.dialogue.specs.Data.{data_over, is_complete, StatusSays};

use key::Refusal;

/// Whether service is granted at all.
#[derive(Clone, Copy, PartialEq, Eq, Debug)]
pub enum Status {
    Granted,
    Barred,
}

// Of one shape with others: a conversion is written for its type, and no macro of our own may write it.
impl TryFrom<u8> for Status {
    type Error = Refusal;

    ghost try_from_gives = { StatusSays };

    fn try_from(number: u8) -> Result<Status, Refusal> {
        match number {
            0 => Ok(Status::Granted),
            1 => Ok(Status::Barred),
            _ => Err(Refusal::OutOfRange),
        }
    }
}

/// Group A: who the subscriber is.
#[derive(Clone, Copy, PartialEq, Eq, Debug)]
pub struct SubscriberInfo {
    pub msisdn: u64,
    pub category: u8,
    pub status: Status,
}

/// Group B: the basic services subscribed to.
#[derive(Clone, Copy, PartialEq, Eq, Debug)]
pub struct BasicServices {
    pub bearer: u32,
    pub teleservice: u32,
}

/// The groups that are known: A, B, D (operator determined barring) and E (roaming restriction).
#[derive(Clone, Copy, PartialEq, Eq, Debug, Default)]
pub struct SubscriberData {
    pub subscriber: Option<SubscriberInfo>,
    pub services: Option<BasicServices>,
    pub barring: Option<u32>,
    pub restricted: Option<bool>,
}

impl SubscriberData {
    /// These groups, and the old ones where there is none of these.
    pub fn over(self, old: SubscriberData) -> SubscriberData
        ensures { result ≡ data_over self old }
    {
        SubscriberData {
            subscriber: self.subscriber.or(old.subscriber),
            services: self.services.or(old.services),
            barring: self.barring.or(old.barring),
            restricted: self.restricted.or(old.restricted),
        }
    }

    /// Whether groups A and B are both there, without which no service can be given.
    pub fn is_complete(self) -> bool
        ensures { result ≡ is_complete self }
    {
        self.subscriber.is_some() && self.services.is_some()
    }
}
