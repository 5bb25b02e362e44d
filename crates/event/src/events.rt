//! The events of a visitor register.
ghost use Rattle.std.specs.Prelude.{◌≡◌};
ghost use Rattle.event.specs.Layout.{size};
ghost use Rattle.event.specs.Seen.{as_event};

/// Bytes that stand for a group of subscriber data: its letter and ten value bytes.
pub const GROUP_LENGTH: usize = 11;

/// What can happen at a visitor register. Operands are plain numbers, as they stand in the bytes, since a
/// register takes events made by hand too, and refuses what is out of range; an Insert borrows its groups from the input.
#[derive(Clone, Copy, PartialEq, Eq, Debug)]
pub enum Event<'a> {
    /// The home register asks for a roaming number, for a call to the subscriber.
    ProvideRoamingNumber(u64),
    /// The exchange asks how to reach the called subscriber.
    CallInformation(u64),
    /// The exchange asks how to deliver a short message, in the second version of its protocol.
    ShortMessageV2(u64),
    /// The same, in the first version.
    ShortMessageV1(u64),
    /// Somebody asks where the subscriber is.
    LocationRequest(u64),
    /// The handset answered a page or a search.
    Access {
        imsi: u64,
        auth: u8,
        msc: u8,
        area: u16,
    },
    /// The handset makes a call or another request of its own.
    Outgoing {
        imsi: u64,
        auth: u8,
        msc: u8,
    },
    /// The handset registers its location.
    Registration {
        imsi: u64,
        auth: u8,
        msc: u8,
        area: u16,
    },
    /// The home register opens a stand-alone update of subscriber data.
    OpenUpdate(u64),
    /// The home register sends groups of subscriber data within a dialogue.
    Insert {
        dialogue: u32,
        count: u8,
        groups: &'a [u8],
    },
    /// The home register ends a dialogue, well (0) or not (1).
    End {
        dialogue: u32,
        outcome: u8,
    },
    /// A home register lost data: each subscriber whose IMSI begins with these digits is concerned.
    Reset {
        digits: u8,
        value: u64,
    },
    /// The subscriber has registered elsewhere.
    Cancel(u64),
    /// This register itself restarts after a failure.
    Restart,
}

impl Event<'_> {
    /// How many bytes the event takes, its code counted.
    pub fn length(&self) -> usize
        ensures { result ≡ size (as_event self.now) }
    {
        match self {
            Event::Access { .. } | Event::Registration { .. } => 13,
            Event::Outgoing { .. } => 11,
            Event::Insert { groups, .. } => 6 + groups.len(),
            Event::End { .. } => 6,
            Event::Reset { .. } => 10,
            Event::Restart => 1,
            _ => 9,
        }
    }
}
