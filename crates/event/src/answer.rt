//! What a visitor register answers to an event, and its sixteen bytes.
ghost use Rattle.std.specs.Prelude.{◌≡◌, length, if◌then◌else◌, Ok, Err, nat_lt};
ghost use Rattle.key.specs.declared.refusal.Refusal.TheVariants.{AreaTooShort};
ghost use Rattle.event.specs.Answers.{reply_number, handling_number, kind_number, ignored_number, opened_number, dialogue_shown, subject_number, answer_head, answer_bytes, written_into};

use key::Refusal;

/// The bytes of an answer.
pub const ANSWER_LENGTH: usize = 16;

/// What the asker is told. The numbers are those of the network's error codes.
#[derive(Clone, Copy, PartialEq, Eq, Debug)]
pub enum Reply {
    Done = 0,
    UnidentifiedSubscriber = 5,
    IllegalSubscriber = 9,
    SystemFailure = 34,
    DataMissing = 35,
    UnexpectedDataValue = 36,
}

/// What the exchange is to do to reach the subscriber.
#[derive(Clone, Copy, PartialEq, Eq, Debug)]
pub enum Handling {
    Nothing = 0,
    /// Page the handset in its location area.
    Page = 1,
    /// Search for it in all areas.
    Search = 2,
    /// A roaming number was given.
    RoamingNumber = 3,
}

/// What a dialogue with the home register is for.
#[derive(Clone, Copy, PartialEq, Eq, Debug)]
pub enum Kind {
    /// This register asks for the subscriber's data.
    RestoreData = 1,
    /// This register reports the subscriber's location.
    UpdateLocation = 2,
    /// The home register changes the subscriber's data of its own accord.
    StandAlone = 3,
}

/// The groups of a message that are not supported here, and so were passed over.
#[derive(Clone, Copy, PartialEq, Eq, Debug)]
pub struct Ignored {
    /// Any group C: supplementary services.
    pub supplementary: bool,
    /// Any group F: regional subscription.
    pub regional: bool,
}

/// The dialogue that an event opened.
#[derive(Clone, Copy, PartialEq, Eq, Debug)]
pub struct Opened {
    pub kind: Kind,
    pub dialogue: u32,
}

/// Whom or what an answer is about. An IMSI stands as its plain number, as in the event.
#[derive(Clone, Copy, PartialEq, Eq, Debug)]
pub enum Subject {
    /// Restart is about nobody.
    Nobody,
    Subscriber(u64),
    /// How many records a Reset concerned.
    Records(u64),
}

/// The answer to an event that was accepted.
#[derive(Clone, Copy, PartialEq, Eq, Debug)]
pub struct Answer {
    pub reply: Reply,
    pub handling: Handling,
    pub opened: Option<Opened>,
    pub ignored: Ignored,
    pub subject: Subject,
}

// Of one shape with the two below: a conversion is written for its type, and no macro of our own may write it.
impl From<Reply> for u8 {
    ghost from_gives = { λ reply n. n ≡ reply_number reply };

    /// The number that stands in an answer's bytes.
    fn from(reply: Reply) -> u8 {
        reply as u8
    }
}

impl From<Handling> for u8 {
    ghost from_gives = { λ handling n. n ≡ handling_number handling };

    /// The number that stands in an answer's bytes.
    fn from(handling: Handling) -> u8 {
        handling as u8
    }
}

impl From<Kind> for u8 {
    ghost from_gives = { λ kind n. n ≡ kind_number kind };

    /// The number that stands in an answer's bytes.
    fn from(kind: Kind) -> u8 {
        kind as u8
    }
}

impl Ignored {
    /// Nothing was passed over.
    pub const NONE: Ignored = Ignored {
        supplementary: false,
        regional: false,
    };
}

impl From<Ignored> for u8 {
    ghost from_gives = { λ ignored n. n ≡ ignored_number ignored };

    /// The number that stands in an answer's bytes: the weights of the groups, added.
    fn from(ignored: Ignored) -> u8 {
        let supplementary = if ignored.supplementary { 4 } else { 0 };
        let regional = if ignored.regional { 32 } else { 0 };
        supplementary + regional
    }
}

impl From<Subject> for u64 {
    ghost from_gives = { λ subject n. n ≡ subject_number subject };

    /// The number that stands in an answer's bytes.
    fn from(subject: Subject) -> u64 {
        match subject {
            Subject::Nobody => 0,
            Subject::Subscriber(imsi) => imsi,
            Subject::Records(count) => count,
        }
    }
}

impl Answer {
    /// The four bytes that an answer begins with.
    fn head(self) -> [u8; 4]
        ensures { result ≡ answer_head self }
    {
        [
            self.reply.into(),
            self.handling.into(),
            self.opened.map_or(0, |opened| opened.kind.into()),
            self.ignored.into(),
        ]
    }

    /// The answer in bytes, numbers with the highest byte first.
    #[tactic(auto, using(key::proofs::Written::four_bytes, key::proofs::Written::eight_bytes))]
    pub fn bytes(self) -> [u8; ANSWER_LENGTH]
        ensures { result ≡ answer_bytes self }
    {
        let dialogue = self.opened.map_or(0, |opened| opened.dialogue);
        let mut bytes = [0; ANSWER_LENGTH];
        bytes[..4].copy_from_slice(&self.head());
        bytes[4..8].copy_from_slice(&dialogue.to_be_bytes());
        bytes[8..].copy_from_slice(&u64::from(self.subject).to_be_bytes());
        bytes
    }

    /// Writes the answer to the front of an area and keeps what lies beyond, or refuses an area that is too short.
    pub fn write(self, area: &mut [u8]) -> Result<(), Refusal>
        ensures answer { result ≡ (if nat_lt (length area.old) 16 then Err AreaTooShort else Ok tt) }
        ensures area { area.new ≡ written_into area.old self }
    {
        if area.len() < ANSWER_LENGTH {
            return Err(Refusal::AreaTooShort);
        }
        area[..ANSWER_LENGTH].copy_from_slice(&self.bytes());
        Ok(())
    }
}
