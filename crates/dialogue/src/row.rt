//! A dialogue, and what becomes of it when something comes for it.
ghost use Rattle.std.specs.Prelude.{◌≡◌, Some};
ghost use Rattle.dialogue.specs.Dialogues.{comes, outcome, dialogue_after, has_number, is_on, stage_text};

use crate::data::SubscriberData;
use crate::draft::take_message;
use event::{Ignored, Kind};
use key::Refusal;
use std::fmt;

/// How far a dialogue has come. Where it is gone, its row is free.
// No `Option` of a row: the project fixed an array of rows, and these four stages.
#[derive(Clone, Copy, PartialEq, Eq, Debug)]
pub enum Stage {
    Gone,
    /// Opened; its invoke is not sent yet.
    Waiting,
    /// Its invoke is sent, or it needed none.
    Sent,
    /// A message in it was rejected.
    Rejected,
}

/// One dialogue with a home register.
#[derive(Clone, Copy, PartialEq, Eq, Debug)]
pub struct Dialogue {
    pub number: u32,
    // a plain number: any dialogue can be made by hand, and what a table holds keeps to the range
    pub imsi: u64,
    pub kind: Kind,
    pub stage: Stage,
    /// The groups received so far.
    pub draft: SubscriberData,
}

/// What comes for a dialogue.
#[derive(Clone, Copy, PartialEq, Eq, Debug)]
pub enum Coming<'a> {
    /// Its invoke is sent.
    Send,
    /// Its invoke is withdrawn.
    Withdraw,
    /// A message with these groups of subscriber data.
    Insert(&'a [u8]),
    End,
}

/// What became of it, where the dialogue was at the stage for it.
#[derive(Clone, Copy, PartialEq, Eq, Debug)]
pub enum Met {
    Sent,
    Withdrawn,
    /// The whole message was taken, and these groups were passed over.
    Taken(Ignored),
    Rejected,
    Ended,
}

impl fmt::Display for Stage {
    ghost output = { λ s. Some (stage_text s) };

    fn fmt<W: fmt::Write>(&self, f: &mut fmt::Formatter<W>) -> fmt::Result {
        f.write_str(match self {
            Stage::Gone => "gone",
            Stage::Waiting => "waiting",
            Stage::Sent => "sent",
            Stage::Rejected => "rejected",
        })
    }
}

impl Dialogue {
    /// The stage is matched with what comes here, and nowhere else.
    pub fn meet(&mut self, coming: Coming) -> Result<Met, Refusal>
        ensures answer { result ≡ outcome self.old (comes coming.entry) }
        ensures dialogue { self.new ≡ dialogue_after self.old (comes coming.entry) }
    {
        match (self.stage, coming) {
            (Stage::Waiting, Coming::Send) => {
                self.stage = Stage::Sent;
                Ok(Met::Sent)
            }
            (Stage::Waiting, Coming::Withdraw) => {
                self.stage = Stage::Gone;
                Ok(Met::Withdrawn)
            }
            (Stage::Sent, Coming::Insert(groups)) => match take_message(&mut self.draft, groups) {
                Some(ignored) => Ok(Met::Taken(ignored)),
                None => {
                    self.stage = Stage::Rejected;
                    Ok(Met::Rejected)
                }
            },
            (Stage::Rejected, Coming::Insert(_)) => Ok(Met::Rejected),
            (Stage::Sent | Stage::Rejected, Coming::End) => {
                self.stage = Stage::Gone;
                Ok(Met::Ended)
            }
            _ => Err(Refusal::DialogueNotOpen),
        }
    }

    /// Whether it is the open dialogue of that number.
    pub fn has_number(self, number: u32) -> bool
        ensures { result ≡ has_number number self }
    {
        self.stage != Stage::Gone && self.number == number
    }

    /// Whether it is open for the subscriber and of that kind.
    pub fn is_on(self, imsi: u64, kind: Kind) -> bool
        ensures { result ≡ is_on imsi kind self }
    {
        self.stage != Stage::Gone && self.imsi == imsi && self.kind == kind
    }
}
