//! What an event comes to for one subscriber, before the register carries it out.
ghost use Rattle.std.specs.Prelude.{◌≡◌, ℕ};
ghost use Rattle.restoration.specs.Plans.{reply_only, unless_open, answer_of};

use crate::record::Record;
use event::{Answer, Handling, Ignored, Kind, Opened, Reply, Subject};

/// The record to keep, if it changes; the reply and the handling; and the kind of dialogue to open, if any.
#[derive(Clone, Copy, PartialEq, Eq, Debug)]
pub struct Plan {
    pub kept: Option<Record>,
    pub reply: Reply,
    pub handling: Handling,
    pub opens: Option<Kind>,
}

impl Plan {
    /// Nothing but a reply.
    pub fn reply_only(reply: Reply) -> Plan
        ensures { result ≡ reply_only reply }
    {
        Plan {
            kept: None,
            reply,
            handling: Handling::Nothing,
            opens: None,
        }
    }

    /// The answer, once it is known which dialogue was opened.
    pub fn answer(self, imsi: u64, opened: Option<Opened>) -> Answer
        ensures { result ≡ answer_of self imsi opened }
    {
        Answer {
            reply: self.reply,
            handling: self.handling,
            opened,
            ignored: Ignored::NONE,
            subject: Subject::Subscriber(imsi),
        }
    }
}

/// The kind, where it is wanted and no dialogue of it is open yet.
pub fn unless_open(wanted: bool, open: bool, kind: Kind) -> Option<Kind>
    ensures { result ≡ unless_open wanted «open» kind }
{
    (wanted && !open).then_some(kind)
}
