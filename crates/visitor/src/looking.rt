//! Looking into a register: its records in key order, and its open dialogues.
ghost use Rattle.std.specs.Prelude.{◌≡◌};
ghost use Rattle.store.specs.Model.{at, first_from, numbered, start};
ghost use Rattle.restoration.specs.Steps.{found};
ghost use Rattle.visitor.specs.Register.{Regular};

use crate::register::Vlr;
use dialogue::Dialogue;
use key::Imsi;
use restoration::Record;
use store::RecordStore;

impl<S: RecordStore<Imsi, Record>> Vlr<S> {
    /// The record of a subscriber, if there is one.
    pub fn record(&self, imsi: Imsi) -> Option<Record>
        ensures answer { result ≡ found self.now imsi.number }
        ensures regular { Regular self.now }
    {
        self.store.find(imsi)
    }

    /// The first subscriber with a record, or the first above a given one.
    pub fn next_subscriber(&self, above: Option<Imsi>) -> Option<Imsi>
        ensures answer { numbered (λ k. k.number) result ≡ first_from self.now.records (start (numbered (λ k. k.number) above)) }
        ensures regular { Regular self.now }
    {
        self.store.next(&above)
    }

    /// The open dialogue of a number, if there is one.
    pub fn dialogue(&self, number: u32) -> Option<Dialogue>
        ensures answer { result ≡ at self.now.dialogues number }
        ensures regular { Regular self.now }
    {
        self.table.find(number)
    }

    /// The first number of an open dialogue, or the first above a given one.
    pub fn next_dialogue(&self, above: Option<u32>) -> Option<u32>
        ensures answer { result ≡ first_from self.now.dialogues (start above) }
        ensures regular { Regular self.now }
    {
        self.table.next_open(above)
    }
}
