//! The table of open dialogues, which contracts see as a map from their numbers and the last number used.

use crate::row::Dialogue;
use std::marker::Model;

mod closing;
mod finding;
mod opening;

/// Sixty-four rows for dialogues, and the last number used.
#[derive(Drop, Debug)]
pub struct Table {
    rows: [Dialogue; 64],
    last: u32,
}

impl Model for Table {
    ghost use Rattle.std.specs.Prelude.{◌≡◌, length};
    ghost use Rattle.dialogue.specs.Listed.{Dialogues, listed, Numbered};

    ghost Value = { Dialogues };

    ghost view = { λ t. record { by_number = listed t.rows; last = t.last } };

    ghost invariant = { λ t. (length t.rows ≡ 64) × Numbered t.rows t.last };
}
