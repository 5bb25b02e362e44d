//! The end of a dialogue, and a Reset: the two events that change records because of what a home register tells.
ghost use Rattle.std.specs.Prelude.{◌≡◌};
ghost use Rattle.store.specs.Model.{each, tally};
ghost use Rattle.visitor.specs.Register.{Regular};
ghost use Rattle.restoration.specs.Steps.{end_answer, end_after, reset_answer, reset_after, concerns, reset_one};

use crate::events::plain;
use crate::register::Vlr;
use dialogue::Coming;
use event::{Answer, Ignored, Reply, Subject};
use key::{HlrId, Imsi, Refusal};
use restoration::{Outcome, Record, plan_end};
use store::RecordStore;

/// Takes the confirmation of the location from each record that the digits concern, and counts them.
fn unlocate<S: RecordStore<Imsi, Record>>(store: &mut S, id: HlrId) -> u64
    ensures room { S.room store.new ≡ S.room store.old }
    ensures count { result ≡ tally (concerns id.digits id.value) (S.entries store.old) }
    ensures records { S.entries store.new ≡ each (reset_one id.digits id.value) (S.entries store.old) }
{
    let mut count = 0;
    let mut last: Option<Imsi> = None;
    // a store lends no iterator while it is put to, so the walk goes from key to key
    while let Some(imsi) = store.next(&last) {
        if imsi.begins_with(id) {
            let record = store.find(imsi).unwrap();
            store.put(imsi, record.unlocated()).unwrap();
            count += 1;
        }
        last = Some(imsi);
    }
    count
}

impl<S: RecordStore<Imsi, Record>> Vlr<S> {
    /// The home register ends a dialogue.
    pub fn end(&mut self, dialogue: u32, outcome: Outcome) -> Result<Answer, Refusal>
        ensures answer { result ≡ end_answer self.old dialogue outcome }
        ensures after { self.new ≡ end_after self.old dialogue outcome }
        ensures regular { Regular self.old × Regular self.new }
    {
        let row = self.table.find(dialogue).ok_or(Refusal::DialogueNotOpen)?;
        let imsi = Imsi::new(row.imsi).unwrap();
        let plan = plan_end(row, outcome, self.store.find(imsi));
        self.table.meet(dialogue, Coming::End)?;
        self.keep(imsi, plan.kept).unwrap();
        Ok(plan.answer(row.imsi, None))
    }

    /// A home register lost data: subscribers whose IMSI begins with its digits have to be located again.
    pub fn reset(&mut self, id: HlrId) -> Answer
        ensures answer { result ≡ reset_answer self.old id.digits id.value }
        ensures after { self.new ≡ reset_after self.old id.digits id.value }
        ensures regular { Regular self.old × Regular self.new }
    {
        let count = unlocate(&mut self.store, id);
        plain(Reply::Done, Ignored::NONE, Subject::Records(count))
    }
}
