//! Words for people: events and answers as they are printed. The words of a reply, of a kind and of a dialogue that opened are promised; the
//! sentence of an event or of an answer is tested.
ghost use Rattle.std.specs.Prelude.{Some};
ghost use Rattle.event.specs.Answers.{reply_text, kind_text, opened_text};

use crate::answer::{Answer, Handling, Ignored, Kind, Opened, Reply};
use crate::events::Event;
use std::fmt;

impl Event<'_> {
    /// What the event is called.
    fn name(&self) -> &'static str {
        match self {
            Event::ProvideRoamingNumber(_) => "Provide Roaming Number",
            Event::CallInformation(_) => "Call Information",
            Event::ShortMessageV2(_) => "Short Message Information, version 2,",
            Event::ShortMessageV1(_) => "Short Message Information, version 1,",
            Event::LocationRequest(_) => "Location Request",
            Event::Access { .. } => "Access",
            Event::Outgoing { .. } => "Outgoing",
            Event::Registration { .. } => "Registration",
            Event::OpenUpdate(_) => "Open Update",
            Event::Insert { .. } => "Insert",
            Event::End { .. } => "End",
            Event::Reset { .. } => "Reset",
            Event::Cancel(_) => "Cancel",
            Event::Restart => "Restart",
        }
    }
}

/// A contact of a handset, before its area.
// Plain numbers, as the event holds them: what they stand for is named in a crate above.
fn contact<W: fmt::Write>(f: &mut fmt::Formatter<W>, imsi: u64, auth: u8, msc: u8) -> fmt::Result {
    let auth = if auth == 1 {
        "authenticated"
    } else {
        "authentication failed"
    };
    write!(f, " of {imsi:015}, {auth}, MSC {msc}")
}

/// A message with subscriber data.
fn message<W: fmt::Write>(f: &mut fmt::Formatter<W>, dialogue: u32, count: u8) -> fmt::Result {
    let groups = if count == 1 { "group" } else { "groups" };
    write!(f, " of {count} {groups} in dialogue {dialogue}")
}

/// How the home register ended a dialogue.
fn ending<W: fmt::Write>(f: &mut fmt::Formatter<W>, dialogue: u32, outcome: u8) -> fmt::Result {
    let outcome = if outcome == 0 { "well" } else { "not well" };
    write!(f, " of dialogue {dialogue}, {outcome}")
}

impl fmt::Display for Event<'_> {
    fn fmt<W: fmt::Write>(&self, f: &mut fmt::Formatter<W>) -> fmt::Result {
        f.write_str(self.name())?;
        match self {
            Event::Access {
                imsi,
                auth,
                msc,
                area,
            }
            | Event::Registration {
                imsi,
                auth,
                msc,
                area,
            } => {
                contact(f, *imsi, *auth, *msc)?;
                write!(f, ", area {area}")
            }
            Event::Outgoing { imsi, auth, msc } => contact(f, *imsi, *auth, *msc),
            Event::Insert {
                dialogue,
                count,
                ..
            } => message(f, *dialogue, *count),
            Event::End { dialogue, outcome } => ending(f, *dialogue, *outcome),
            Event::Reset { digits, value } => write!(f, " of {digits} digits, value {value}"),
            Event::ProvideRoamingNumber(imsi)
            | Event::CallInformation(imsi)
            | Event::ShortMessageV2(imsi)
            | Event::ShortMessageV1(imsi)
            | Event::LocationRequest(imsi)
            | Event::OpenUpdate(imsi)
            | Event::Cancel(imsi) => write!(f, " for {imsi:015}"),
            Event::Restart => Ok(()),
        }
    }
}

impl fmt::Display for Reply {
    ghost output = { λ reply. Some (reply_text reply) };

    fn fmt<W: fmt::Write>(&self, f: &mut fmt::Formatter<W>) -> fmt::Result {
        f.write_str(match self {
            Reply::Done => "done",
            Reply::UnidentifiedSubscriber => "unidentified subscriber",
            Reply::IllegalSubscriber => "illegal subscriber",
            Reply::SystemFailure => "system failure",
            Reply::DataMissing => "data missing",
            Reply::UnexpectedDataValue => "unexpected data value",
        })
    }
}

/// A dialogue in a list, in one word for its kind.
impl fmt::Display for Kind {
    ghost output = { λ kind. Some (kind_text kind) };

    fn fmt<W: fmt::Write>(&self, f: &mut fmt::Formatter<W>) -> fmt::Result {
        f.write_str(match self {
            Kind::RestoreData => "restore",
            Kind::UpdateLocation => "update",
            Kind::StandAlone => "stand-alone",
        })
    }
}

impl fmt::Display for Opened {
    ghost output = { λ opened. Some (opened_text opened) };

    fn fmt<W: fmt::Write>(&self, f: &mut fmt::Formatter<W>) -> fmt::Result {
        let dialogue = self.dialogue;
        let kind = match self.kind {
            Kind::RestoreData => "Restore Data",
            Kind::UpdateLocation => "Update Location",
            Kind::StandAlone => "stand-alone update",
        };
        write!(f, "{kind} opened as dialogue {dialogue}")
    }
}

/// What the exchange is to do, as it follows a reply.
fn then_handling(handling: Handling) -> &'static str {
    match handling {
        Handling::Nothing => "",
        Handling::Page => ", page",
        Handling::Search => ", search",
        Handling::RoamingNumber => ", roaming number given",
    }
}

/// The groups that were passed over, as they follow a reply.
fn then_ignored(ignored: Ignored) -> &'static str {
    match (ignored.supplementary, ignored.regional) {
        (false, false) => "",
        (true, false) => ", group C passed over",
        (false, true) => ", group F passed over",
        (true, true) => ", groups C and F passed over",
    }
}

impl fmt::Display for Answer {
    fn fmt<W: fmt::Write>(&self, f: &mut fmt::Formatter<W>) -> fmt::Result {
        let reply = self.reply;
        let handling = then_handling(self.handling);
        let ignored = then_ignored(self.ignored);
        write!(f, "{reply}{handling}{ignored}")?;
        if let Some(opened) = self.opened {
            write!(f, ", {opened}")?;
        }
        Ok(())
    }
}
