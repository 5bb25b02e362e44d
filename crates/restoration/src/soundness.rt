//! What holds of a register at all times, whatever comes: laws over its single steps, which no code needs to run.
ghost use Rattle.restoration.specs.Complete.{DataLaw};
ghost use Rattle.restoration.specs.Sound.{StaysSound};

/// A dialogue is open only for a subscriber with a record, one of a kind at most, 64 in all, and none with a number
/// above the last used.
pub fn stays_sound()
    ensures { StaysSound }
{}

/// A record has groups A and B exactly when a good end came since it was made.
pub fn data_law()
    ensures { DataLaw }
{}
