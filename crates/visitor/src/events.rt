//! The events, one method to each.
ghost use Rattle.std.specs.Prelude.{◌≡◌, Ok};
ghost use Rattle.event.specs.declared.answer.Reply.TheVariants.{Done, UnidentifiedSubscriber, SystemFailure};
ghost use Rattle.event.specs.declared.answer.Subject.TheVariants.{Nobody};
ghost use Rattle.dialogue.specs.Messages.{none_ignored};
ghost use Rattle.visitor.specs.Register.{Carried, Regular};
ghost use Rattle.restoration.specs.Steps.{found, busy, planned_answer, planned_after, provide, accessed, went_out, registered, updating, reached, plain, insert_answer, insert_after, end_answer, end_after, reset_answer, reset_after, cancel_answer, cancel_after, restart_after};

use crate::register::Vlr;
use dialogue::{Coming, Met};
use event::{Answer, Handling, Ignored, Kind, Reply, Subject};
use key::{Imsi, Refusal};
use restoration::{
    Auth, Plan, Record, plan_access, plan_outgoing, plan_reach, plan_registration,
    plan_roaming_number, plan_update,
};
use store::RecordStore;

impl<S: RecordStore<Imsi, Record>> Vlr<S> {
    /// Carries out what is planned of the subscriber's record and of whether a dialogue of the kind is open.
    fn planned<P: FnOnce(Option<Record>, bool) -> Plan>(
        &mut self,
        imsi: Imsi,
        kind: Kind,
        plan: P,
    ) -> Result<Answer, Refusal>
        requires { P.IsAlwaysCallable plan }
        ensures carried { Carried self.old imsi.number (P.post plan (found self.old imsi.number) (busy self.old imsi.number kind)) result self.new }
        ensures regular { Regular self.old × Regular self.new }
    {
        let old = self.store.find(imsi);
        let busy = self.table.has(imsi.number(), kind);
        self.carry(imsi, plan(old, busy))
    }

    /// The home register asks for a roaming number.
    pub fn provide_roaming_number(&mut self, imsi: Imsi) -> Result<Answer, Refusal>
        ensures answer { result ≡ planned_answer self.old imsi.number (provide self.old imsi.number) }
        ensures after { self.new ≡ planned_after self.old imsi.number (provide self.old imsi.number) }
        ensures regular { Regular self.old × Regular self.new }
    {
        let several = self.several;
        self.planned(imsi, Kind::RestoreData, |old, busy| {
            plan_roaming_number(several, old, busy)
        })
    }

    /// How to reach the subscriber; `unknown` is the reply where that is not known.
    fn reach(&self, imsi: Imsi, unknown: Reply) -> Answer
        ensures answer { result ≡ reached self.now imsi.number unknown }
        ensures regular { Regular self.now }
    {
        plan_reach(unknown, self.store.find(imsi)).answer(imsi.number(), None)
    }

    // Each of the next four is called by its name, and is one line over what they share.
    /// The exchange asks how to reach the called subscriber.
    pub fn call_information(&self, imsi: Imsi) -> Answer
        ensures answer { result ≡ reached self.now imsi.number SystemFailure }
        ensures regular { Regular self.now }
    {
        self.reach(imsi, Reply::SystemFailure)
    }

    /// The exchange asks how to deliver a short message, in version 2.
    pub fn short_message_v2(&self, imsi: Imsi) -> Answer
        ensures answer { result ≡ reached self.now imsi.number UnidentifiedSubscriber }
        ensures regular { Regular self.now }
    {
        self.reach(imsi, Reply::UnidentifiedSubscriber)
    }

    /// The exchange asks how to deliver a short message, in version 1.
    pub fn short_message_v1(&self, imsi: Imsi) -> Answer
        ensures answer { result ≡ reached self.now imsi.number SystemFailure }
        ensures regular { Regular self.now }
    {
        self.reach(imsi, Reply::SystemFailure)
    }

    /// Somebody asks where the subscriber is.
    pub fn location_request(&self, imsi: Imsi) -> Answer
        ensures answer { result ≡ reached self.now imsi.number UnidentifiedSubscriber }
        ensures regular { Regular self.now }
    {
        self.reach(imsi, Reply::UnidentifiedSubscriber)
    }

    /// The handset answered a page or a search.
    pub fn access(&mut self, imsi: Imsi, auth: Auth, msc: u8, area: u16) -> Result<Answer, Refusal>
        ensures answer { result ≡ planned_answer self.old imsi.number (accessed self.old imsi.number auth msc area) }
        ensures after { self.new ≡ planned_after self.old imsi.number (accessed self.old imsi.number auth msc area) }
        ensures regular { Regular self.old × Regular self.new }
    {
        self.planned(imsi, Kind::UpdateLocation, |old, busy| {
            plan_access(old, auth, msc, area, busy)
        })
    }

    /// The handset asks for a service of its own accord.
    pub fn outgoing(&mut self, imsi: Imsi, auth: Auth, msc: u8) -> Result<Answer, Refusal>
        ensures answer { result ≡ planned_answer self.old imsi.number (went_out self.old imsi.number auth msc) }
        ensures after { self.new ≡ planned_after self.old imsi.number (went_out self.old imsi.number auth msc) }
        ensures regular { Regular self.old × Regular self.new }
    {
        self.planned(imsi, Kind::UpdateLocation, |old, busy| {
            plan_outgoing(old, auth, msc, busy)
        })
    }

    /// The handset registers its location.
    pub fn registration(
        &mut self,
        imsi: Imsi,
        auth: Auth,
        msc: u8,
        area: u16,
    ) -> Result<Answer, Refusal>
        ensures answer { result ≡ planned_answer self.old imsi.number (registered self.old imsi.number auth msc area) }
        ensures after { self.new ≡ planned_after self.old imsi.number (registered self.old imsi.number auth msc area) }
        ensures regular { Regular self.old × Regular self.new }
    {
        self.planned(imsi, Kind::UpdateLocation, |old, busy| {
            plan_registration(old, auth, msc, area, busy)
        })
    }

    /// The home register opens a stand-alone update.
    pub fn open_update(&mut self, imsi: Imsi) -> Result<Answer, Refusal>
        ensures answer { result ≡ planned_answer self.old imsi.number (updating self.old imsi.number) }
        ensures after { self.new ≡ planned_after self.old imsi.number (updating self.old imsi.number) }
        ensures regular { Regular self.old × Regular self.new }
    {
        // the name alone gets no proof here, since the function is another crate's
        self.planned(imsi, Kind::StandAlone, |old, busy| plan_update(old, busy))
    }

    /// The home register sends groups of subscriber data.
    pub fn insert(&mut self, dialogue: u32, groups: &[u8]) -> Result<Answer, Refusal>
        ensures answer { result ≡ insert_answer self.old dialogue groups.now }
        ensures after { self.new ≡ insert_after self.old dialogue groups.now }
        ensures regular { Regular self.old × Regular self.new }
    {
        let row = self.table.find(dialogue).ok_or(Refusal::DialogueNotOpen)?;
        let subject = Subject::Subscriber(row.imsi);
        match self.table.meet(dialogue, Coming::Insert(groups))? {
            Met::Taken(ignored) => Ok(plain(Reply::Done, ignored, subject)),
            Met::Rejected => Ok(plain(Reply::UnexpectedDataValue, Ignored::NONE, subject)),
            _ => unreachable!(),
        }
    }

    /// The subscriber has registered elsewhere: the record and its dialogues go.
    pub fn cancel(&mut self, imsi: Imsi) -> Answer
        ensures answer { result ≡ cancel_answer self.old imsi.number }
        ensures after { self.new ≡ cancel_after self.old imsi.number }
        ensures regular { Regular self.old × Regular self.new }
    {
        let subject = Subject::Subscriber(imsi.number());
        if self.store.remove(imsi) {
            self.table.close_of(imsi.number());
            plain(Reply::Done, Ignored::NONE, subject)
        } else {
            plain(Reply::UnidentifiedSubscriber, Ignored::NONE, subject)
        }
    }

    /// This register restarts after a failure: records and dialogues go, and numbers go on.
    pub fn restart(&mut self) -> Answer
        ensures answer { result ≡ plain Done none_ignored Nobody }
        ensures after { self.new ≡ restart_after self.old }
        ensures regular { Regular self.old × Regular self.new }
    {
        self.store.clear();
        self.table.clear();
        plain(Reply::Done, Ignored::NONE, Subject::Nobody)
    }
}

/// An answer that is a reply alone.
pub fn plain(reply: Reply, ignored: Ignored, subject: Subject) -> Answer
    ensures { result ≡ plain reply ignored subject }
{
    Answer {
        reply,
        handling: Handling::Nothing,
        opened: None,
        ignored,
        subject,
    }
}
