//! One group of subscriber data, from its eleven bytes.
ghost use Rattle.std.specs.Prelude.{◌≡◌};
ghost use Rattle.dialogue.specs.Groups.{all_zero, group_read, subscriber_read, services_read, barring_read, restriction_read, with_group};

use crate::data::{BasicServices, Status, SubscriberData, SubscriberInfo};
use event::GROUP_LENGTH;
use key::{IMSI_LIMIT, number_at};

/// A group that is expected. Two are not supported here and carry nothing.
#[derive(Clone, Copy, PartialEq, Eq, Debug)]
pub enum Group {
    Subscriber(SubscriberInfo),
    Services(BasicServices),
    Supplementary,
    Barring(u32),
    Restriction(bool),
    Regional,
}

/// Whether all bytes are zero, as where a group's value has no more to say.
fn all_zero(bytes: &[u8]) -> bool
    ensures { result ≡ all_zero bytes.now }
{
    bytes.iter().all(|byte| *byte == 0)
}

fn read_subscriber(bytes: &[u8; GROUP_LENGTH]) -> Option<Group>
    ensures { result ≡ subscriber_read bytes.now }
{
    let msisdn = number_at(bytes, 1, 8);
    let category = bytes[9];
    let status = Status::try_from(bytes[10]).ok()?;
    (msisdn < IMSI_LIMIT).then_some(Group::Subscriber(SubscriberInfo {
        msisdn,
        category,
        status,
    }))
}

fn read_services(bytes: &[u8; GROUP_LENGTH]) -> Option<Group>
    ensures { result ≡ services_read bytes.now }
{
    let bearer = number_at(bytes, 1, 4) as u32;
    let teleservice = number_at(bytes, 5, 4) as u32;
    all_zero(&bytes[9..]).then_some(Group::Services(BasicServices {
        bearer,
        teleservice,
    }))
}

fn read_barring(bytes: &[u8; GROUP_LENGTH]) -> Option<Group>
    ensures { result ≡ barring_read bytes.now }
{
    let barring = number_at(bytes, 1, 4) as u32;
    all_zero(&bytes[5..]).then_some(Group::Barring(barring))
}

fn read_restriction(bytes: &[u8; GROUP_LENGTH]) -> Option<Group>
    ensures { result ≡ restriction_read bytes.now }
{
    let restriction = bytes[1];
    let expected = restriction < 2 && all_zero(&bytes[2..]);
    expected.then_some(Group::Restriction(restriction == 1))
}

/// The group that the bytes are, or none where the letter or the value is unexpected.
pub fn read_group(bytes: &[u8]) -> Option<Group>
    ensures { result ≡ group_read bytes.now }
{
    let bytes: &[u8; GROUP_LENGTH] = bytes.try_into().ok()?;
    match bytes[0] {
        b'A' => read_subscriber(bytes),
        b'B' => read_services(bytes),
        b'C' => Some(Group::Supplementary),
        b'D' => read_barring(bytes),
        b'E' => read_restriction(bytes),
        b'F' => Some(Group::Regional),
        _ => None,
    }
}

impl SubscriberData {
    /// Puts a group over what was there.
    pub fn put(&mut self, group: Group)
        ensures { self.new ≡ with_group group self.old }
    {
        match group {
            Group::Subscriber(subscriber) => self.subscriber = Some(subscriber),
            Group::Services(services) => self.services = Some(services),
            Group::Barring(barring) => self.barring = Some(barring),
            Group::Restriction(restricted) => self.restricted = Some(restricted),
            Group::Supplementary | Group::Regional => {}
        }
    }
}
