//! The register: a store of records, the table of dialogues, and whether it serves one MSC or several.
ghost use Rattle.std.specs.Prelude.{◌≡◌};
ghost use Rattle.restoration.specs.State.{started};
ghost use Rattle.restoration.specs.Steps.{planned_answer, planned_after};
ghost use Rattle.visitor.specs.Register.{FitsSays, KeepSays, Regular};

use dialogue::Table;
use event::{Answer, Opened};
use key::{Imsi, Refusal};
use restoration::{Plan, Record};
use std::marker::Model;
use store::{RecordStore, room_for};

/// A visitor register above a record store.
#[derive(Drop)]
pub struct Vlr<S: RecordStore<Imsi, Record>> {
    pub(crate) store: S,
    pub(crate) table: Table,
    pub(crate) several: bool,
}

impl<S: RecordStore<Imsi, Record>> Model for Vlr<S> {
    ghost use Rattle.dialogue.specs.Listed.{Orderly};
    ghost use Rattle.restoration.specs.State.{State};

    ghost Value = { State };

    ghost view = { λ v. record { records = S.entries v.store; room = S.room v.store; dialogues = v.table.by_number; last = v.table.last; several = v.several } };

    ghost invariant = { λ v. Orderly v.table };
}

impl<S: RecordStore<Imsi, Record>> Vlr<S> {
    /// A register that goes into service: its store is cleared, and numbers go on after the last one used.
    pub fn start(mut store: S, several: bool, last: u32) -> Vlr<S>
        ensures is { result ≡ started (S.room store) last several }
        ensures regular { Regular result }
    {
        store.clear();
        Vlr {
            store,
            table: Table::new(last),
            several,
        }
    }

    /// Whether the record, if there is one, would be taken.
    fn fits(&self, imsi: Imsi, kept: Option<Record>) -> Result<(), Refusal>
        ensures { FitsSays self.now imsi.number kept result }
    {
        kept.map_or(Ok(()), |_| room_for(&self.store, imsi))
    }

    /// Keeps the record, if there is one.
    pub(crate) fn keep(&mut self, imsi: Imsi, kept: Option<Record>) -> Result<(), Refusal>
        ensures kept { KeepSays self.old imsi.number kept result self.new }
        ensures regular { Regular self.old × Regular self.new }
    {
        // by this the proof knows what holds of every register, of a refusal too
        let _ = &self.table;
        // a closure that puts leaves what the store is afterwards unproved, so this is no `map_or`
        match kept {
            Some(record) => self.store.put(imsi, record),
            None => Ok(()),
        }
    }

    /// Carries a plan out, or turns it down and leaves all as it was.
    pub(crate) fn carry(&mut self, imsi: Imsi, plan: Plan) -> Result<Answer, Refusal>
        ensures answer { result ≡ planned_answer self.old imsi.number plan }
        ensures after { self.new ≡ planned_after self.old imsi.number plan }
        ensures regular { Regular self.old × Regular self.new }
    {
        match plan.opens {
            None => {
                self.keep(imsi, plan.kept)?;
                Ok(plan.answer(imsi.number(), None))
            }
            Some(kind) => {
                self.fits(imsi, plan.kept)?;
                let dialogue = self.table.open(imsi, kind)?;
                self.keep(imsi, plan.kept).unwrap();
                Ok(plan.answer(imsi.number(), Some(Opened { kind, dialogue })))
            }
        }
    }
}
