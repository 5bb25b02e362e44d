//! The two forms of an event: direct, which hands out invokes, and in bytes, which sends them itself.
ghost use Rattle.std.specs.Prelude.{◌≡◌, ℕ};
ghost use Rattle.event.specs.Layout.{access, outgoing, registration, insert, end, reset};
ghost use Rattle.event.specs.Seen.{as_event};
ghost use Rattle.dialogue.specs.Dialogues.{send, withdraw};
ghost use Rattle.restoration.specs.Steps.{answered, after, sent_out, spending_answer, spending_after};
ghost use Rattle.restoration.specs.Received.{received, received_after, received_area};
ghost use Rattle.visitor.specs.Invokes.{direct};
ghost use Rattle.visitor.specs.Register.{Regular};

use crate::invoke::{Handed, Invoke};
use crate::register::Vlr;
use dialogue::Coming;
use event::{ANSWER_LENGTH, Answer, Decoded, Event, GROUP_LENGTH, decode};
use key::{HlrId, Imsi, Refusal};
use restoration::{Auth, Outcome, Received, Record};
use store::RecordStore;

impl<S: RecordStore<Imsi, Record>> Vlr<S> {
    /// An Insert of which nothing is known but its type: one to six groups, and no other bytes.
    fn checked_insert(&mut self, dialogue: u32, count: u8, groups: &[u8]) -> Result<Answer, Refusal>
        ensures answer { result ≡ answered self.old (insert dialogue count groups.now) }
        ensures after { self.new ≡ after self.old (insert dialogue count groups.now) }
        ensures regular { Regular self.old × Regular self.new }
    {
        // by this the proof knows what holds of every register, of a refusal too
        let _ = &self.table;
        if !(1..=6).contains(&count) || groups.len() != GROUP_LENGTH * usize::from(count) {
            return Err(Refusal::OutOfRange);
        }
        self.insert(dialogue, groups)
    }

    /// A Reset of which nothing is known but its type.
    fn checked_reset(&mut self, digits: u8, value: u64) -> Result<Answer, Refusal>
        ensures answer { result ≡ answered self.old (reset digits value) }
        ensures after { self.new ≡ after self.old (reset digits value) }
        ensures regular { Regular self.old × Regular self.new }
    {
        // by this the proof knows what holds of every register, of a refusal too
        let _ = &self.table;
        let id = HlrId::new(digits, value).ok_or(Refusal::OutOfRange)?;
        Ok(self.reset(id))
    }

    /// Answers an event of which nothing is known but its type.
    fn act(&mut self, event: Event<'_>) -> Result<Answer, Refusal>
        ensures answer { result ≡ answered self.old (as_event event.entry) }
        ensures after { self.new ≡ after self.old (as_event event.entry) }
        ensures regular { Regular self.old × Regular self.new }
    {
        // by this the proof knows what holds of every register, of a refusal too
        let _ = &self.table;
        match event {
            Event::ProvideRoamingNumber(imsi) => self.provide_roaming_number(Imsi::try_from(imsi)?),
            Event::CallInformation(imsi) => Ok(self.call_information(Imsi::try_from(imsi)?)),
            Event::ShortMessageV2(imsi) => Ok(self.short_message_v2(Imsi::try_from(imsi)?)),
            Event::ShortMessageV1(imsi) => Ok(self.short_message_v1(Imsi::try_from(imsi)?)),
            Event::LocationRequest(imsi) => Ok(self.location_request(Imsi::try_from(imsi)?)),
            Event::Access {
                imsi,
                auth,
                msc,
                area,
            } => self.access(Imsi::try_from(imsi)?, Auth::try_from(auth)?, msc, area),
            Event::Outgoing { imsi, auth, msc } => self.outgoing(
                Imsi::try_from(imsi)?,
                Auth::try_from(auth)?,
                msc,
            ),
            Event::Registration {
                imsi,
                auth,
                msc,
                area,
            } => self.registration(Imsi::try_from(imsi)?, Auth::try_from(auth)?, msc, area),
            Event::OpenUpdate(imsi) => self.open_update(Imsi::try_from(imsi)?),
            Event::Insert {
                dialogue,
                count,
                groups,
            } => self.checked_insert(dialogue, count, groups),
            Event::End { dialogue, outcome } => self.end(dialogue, Outcome::try_from(outcome)?),
            Event::Reset { digits, value } => self.checked_reset(digits, value),
            Event::Cancel(imsi) => Ok(self.cancel(Imsi::try_from(imsi)?)),
            Event::Restart => Ok(self.restart()),
        }
    }

    /// Answers an event, and hands out the invoke of the dialogue that it opened.
    pub fn direct(&mut self, event: Event<'_>) -> Result<Handed, Refusal>
        ensures answer { result ≡ direct (answered self.old (as_event event.entry)) }
        ensures after { self.new ≡ after self.old (as_event event.entry) }
        ensures regular { Regular self.old × Regular self.new }
    {
        self.act(event).map(Handed::of)
    }

    // Sending and withdrawing are called by their names, and are one line each.
    /// Sends an invoke, and tells whether it went: where no unsent dialogue of its number is open, nothing changes.
    pub fn send(&mut self, invoke: Invoke) -> bool
        ensures answer { result ≡ spending_answer self.old invoke.dialogue send }
        ensures after { self.new ≡ spending_after self.old invoke.dialogue send }
        ensures regular { Regular self.old × Regular self.new }
    {
        self.table.meet(invoke.spend(), Coming::Send).is_ok()
    }

    /// Withdraws an invoke, which closes its dialogue and leaves the record, and tells as sending does.
    pub fn withdraw(&mut self, invoke: Invoke) -> bool
        ensures answer { result ≡ spending_answer self.old invoke.dialogue withdraw }
        ensures after { self.new ≡ spending_after self.old invoke.dialogue withdraw }
        ensures regular { Regular self.old × Regular self.new }
    {
        self.table.meet(invoke.spend(), Coming::Withdraw).is_ok()
    }

    /// Answers an event and sends the invoke of the dialogue that it opened.
    fn sent(&mut self, event: Event<'_>) -> Result<Answer, Refusal>
        ensures answer { result ≡ answered self.old (as_event event.entry) }
        ensures after { self.new ≡ sent_out (answered self.old (as_event event.entry)) (after self.old (as_event event.entry)) }
        ensures regular { Regular self.old × Regular self.new }
    {
        let Handed { answer, invoke } = self.direct(event)?;
        if let Some(invoke) = invoke {
            self.send(invoke);
        }
        Ok(answer)
    }

    /// Answers an event in bytes: the answer goes to the front of the area, and an invoke is sent at once. A refusal
    /// leaves register and area as they were.
    pub fn receive(&mut self, input: &[u8], area: &mut [u8]) -> Result<Received, Refusal>
        ensures answer { result ≡ received self.old input.now area.old }
        ensures after { self.new ≡ received_after self.old input.now area.old }
        ensures area { area.new ≡ received_area self.old input.now area.old }
        ensures regular { Regular self.old × Regular self.new }
    {
        // by this the proof knows what holds of every register, of a refusal too
        let _ = &self.table;
        if area.len() < ANSWER_LENGTH {
            return Err(Refusal::AreaTooShort);
        }
        let Decoded { event, length } = decode(input)?;
        let answer = self.sent(event)?;
        answer.write(area).unwrap();
        Ok(Received { length, answer })
    }
}
