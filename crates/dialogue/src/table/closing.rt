//! Closing dialogues with their subscriber, or all of them.
ghost use Rattle.std.specs.Prelude.{◌≡◌};
ghost use Rattle.dialogue.specs.Listed.{none_open, without_imsi, Orderly};

use crate::row::Stage;
use crate::table::Table;

impl Table {
    /// Closes all dialogues. Numbers go on.
    pub fn clear(&mut self)
        ensures after { self.new ≡ none_open self.old.last }
        ensures before { Orderly self.old }
        ensures table { Orderly self.new }
    {
        *self = Table::new(self.last);
    }

    /// Closes the subscriber's dialogues.
    pub fn close_of(&mut self, imsi: u64)
        ensures after { self.new ≡ without_imsi self.old imsi }
        ensures before { Orderly self.old }
        ensures table { Orderly self.new }
    {
        for row in &mut self.rows {
            if row.imsi == imsi {
                row.stage = Stage::Gone;
            }
        }
    }
}
