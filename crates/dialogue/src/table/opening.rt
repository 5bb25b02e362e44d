//! A new table, and opening a dialogue in it.
ghost use Rattle.std.specs.Prelude.{◌≡◌};
ghost use Rattle.dialogue.specs.Dialogues.{first_stage, opening};
ghost use Rattle.dialogue.specs.Listed.{none_open, OpenSays, Orderly, FreeSays, NumberSays};

use crate::data::SubscriberData;
use crate::row::{Dialogue, Stage};
use crate::table::Table;
use event::Kind;
use key::{Imsi, Refusal};

/// A row that no dialogue has.
// A constant calls no `default()`.
const FREE: Dialogue = Dialogue {
    number: 0,
    imsi: 0,
    kind: Kind::RestoreData,
    stage: Stage::Gone,
    draft: SubscriberData {
        subscriber: None,
        services: None,
        barring: None,
        restricted: None,
    },
};

/// The stage at which a dialogue of the kind opens.
fn first_stage(kind: Kind) -> Stage
    ensures { result ≡ first_stage kind }
{
    match kind {
        Kind::RestoreData | Kind::UpdateLocation => Stage::Waiting,
        Kind::StandAlone => Stage::Sent,
    }
}

impl Dialogue {
    /// A dialogue as it opens.
    fn opening(number: u32, imsi: Imsi, kind: Kind) -> Dialogue
        ensures { result ≡ opening number imsi.number kind }
    {
        Dialogue {
            number,
            imsi: imsi.number(),
            kind,
            stage: first_stage(kind),
            draft: SubscriberData::default(),
        }
    }
}

/// A row that no dialogue has yet.
fn free(rows: &[Dialogue; 64]) -> Result<usize, Refusal>
    ensures { FreeSays result rows.now }
{
    rows.iter()
        .position(|row| row.stage == Stage::Gone)
        .ok_or(Refusal::TooManyDialogues)
}

/// The number of the next dialogue.
fn number_after(last: u32) -> Result<u32, Refusal>
    ensures { NumberSays result last }
{
    last.checked_add(1).ok_or(Refusal::NumbersUsedUp)
}

impl Table {
    /// No dialogue is open, and numbers go on after the last one used.
    #[tactic(auto, unfolding(crate::specs::Listed::listed))]
    pub fn new(last: u32) -> Table
        ensures is { result ≡ none_open last }
        ensures table { Orderly result }
    {
        Table {
            rows: [FREE; 64],
            last,
        }
    }

    /// Opens a dialogue and answers its number, or refuses and leaves all as it was.
    pub fn open(&mut self, imsi: Imsi, kind: Kind) -> Result<u32, Refusal>
        ensures opened { OpenSays result self.old imsi.number kind self.new }
        ensures before { Orderly self.old }
        ensures table { Orderly self.new }
    {
        let i = free(&self.rows)?;
        let number = number_after(self.last)?;
        self.rows[i] = Dialogue::opening(number, imsi, kind);
        self.last = number;
        Ok(number)
    }
}
