//! Finding an open dialogue, and letting it meet what comes.
ghost use Rattle.std.specs.Prelude.{◌≡◌};
ghost use Rattle.store.specs.Model.{at, any, first_from, start};
ghost use Rattle.dialogue.specs.Dialogues.{comes, is_from};
ghost use Rattle.dialogue.specs.Listed.{on, met_at, with_met, OnImsi, Orderly, PlaceSays};

use crate::row::{Coming, Dialogue, Met, Stage};
use crate::table::Table;
use event::Kind;
use key::Refusal;

impl Dialogue {
    /// Whether it is open, and its number above the given one, if any.
    fn is_above(self, above: Option<u32>) -> bool
        ensures { result ≡ is_from (start above) self }
    {
        self.stage != Stage::Gone && above.is_none_or(|given| given < self.number)
    }
}

/// Where the open dialogue of the number stands.
fn place(rows: &[Dialogue; 64], number: u32) -> Result<usize, Refusal>
    ensures { PlaceSays result rows.now number }
{
    rows.iter()
        .position(|row| row.has_number(number))
        .ok_or(Refusal::DialogueNotOpen)
}

impl Table {
    /// The open dialogue of the number.
    pub fn find(&self, number: u32) -> Option<Dialogue>
        ensures found { result ≡ at self.now.by_number number }
        ensures on_imsi { OnImsi result }
        ensures table { Orderly self.now }
    {
        self.rows.iter().find(|row| row.has_number(number)).copied()
    }

    /// Whether a dialogue of the kind is open for the subscriber.
    pub fn has(&self, imsi: u64, kind: Kind) -> bool
        ensures answer { result ≡ any (on imsi kind) self.now.by_number }
        ensures table { Orderly self.now }
    {
        self.rows.iter().any(|row| row.is_on(imsi, kind))
    }

    /// The first open number, or the first above a given one.
    pub fn next_open(&self, above: Option<u32>) -> Option<u32>
        ensures answer { result ≡ first_from self.now.by_number (start above) }
        ensures table { Orderly self.now }
    {
        self.rows
            .iter()
            .filter(|row| row.is_above(above))
            .map(|row| row.number)
            .min()
    }

    /// Lends the dialogue of the number to what comes for it.
    pub fn meet(&mut self, number: u32, coming: Coming) -> Result<Met, Refusal>
        ensures answer { result ≡ met_at (at self.old.by_number number) (comes coming.entry) }
        ensures after { self.new ≡ with_met self.old number (comes coming.entry) }
        ensures before { Orderly self.old }
        ensures table { Orderly self.new }
    {
        let i = place(&self.rows, number)?;
        self.rows[i].meet(coming)
    }
}
