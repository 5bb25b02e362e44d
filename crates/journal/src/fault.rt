//! Why a line is not of the format.
ghost use Rattle.std.specs.Prelude.{◌≡◌};
ghost use Rattle.journal.specs.declared.fault.Fault.TheVariants.{Memory};

use std::alloc::{AllocError, AllocFailed};
use std::error::Error;
use std::fmt;

/// Why a line could not be read.
#[derive(Clone, Copy, PartialEq, Eq, Debug)]
pub enum Fault {
    /// It does not begin with the name of a call.
    Call,
    /// What follows `event` or `direct` is not pairs of hexadecimal digits.
    Hexadecimal,
    /// What follows `visitor` is not of its form.
    Visitor,
    /// What follows `send` or `withdraw` is not one number.
    Dialogue,
    /// Something follows a call that takes nothing.
    Nothing,
    /// There was no memory for it.
    Memory,
}

/// What was expected.
impl fmt::Display for Fault {
    ghost use Rattle.journal.specs.Faults.{fault_text};
    ghost use Rattle.std.specs.Prelude.{Some};

    ghost output = { λ fault. Some (fault_text fault) };

    fn fmt<W: fmt::Write>(&self, f: &mut fmt::Formatter<W>) -> fmt::Result {
        f.write_str(match self {
            Fault::Call => "expected visitor, event, direct, send, withdraw or show",
            Fault::Hexadecimal => "expected pairs of hexadecimal digits",
            Fault::Visitor =>
                "expected visitor one|several LAST rows|tree ROOM, with a room of at most 65536",
            Fault::Dialogue => "expected the number of a dialogue",
            Fault::Nothing => "expected the end of the line",
            Fault::Memory => "no memory for the line",
        })
    }
}

impl Error for Fault {}

impl<T: Drop> From<AllocFailed<T>> for Fault {
    ghost from_gives = { λ _ r. r ≡ Memory };

    fn from(_e: AllocFailed<T>) -> Fault {
        Fault::Memory
    }
}

impl From<AllocError> for Fault {
    ghost from_gives = { λ _ r. r ≡ Memory };

    fn from(_e: AllocError) -> Fault {
        Fault::Memory
    }
}
