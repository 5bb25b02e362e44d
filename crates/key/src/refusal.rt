//! Why a call is refused. There is one list of reasons for all layers, so that a reason passes up through them unchanged.
ghost use Rattle.std.specs.Prelude.{◌≡◌, Some};
ghost use Rattle.key.specs.Refusals.{refusal_number, refusal_text};

use std::error::Error;
use std::fmt;

/// The reasons in the order in which they are tried.
#[derive(Clone, Copy, PartialEq, Eq, Debug)]
pub enum Refusal {
    /// The answer area has under 16 bytes.
    AreaTooShort = 1,
    /// The input is empty, or starts with no event's code.
    UnknownCode = 2,
    /// The input ends before the operands do.
    InputTooShort = 3,
    /// An operand is outside its range.
    OutOfRange = 4,
    /// A new key is needed, and the store is full.
    StoreFull = 5,
    /// A dialogue would open, and 64 are open.
    TooManyDialogues = 6,
    /// A dialogue would open, and the last dialogue number has been used.
    NumbersUsedUp = 7,
    /// The dialogue is not open, or its invoke is not sent yet.
    DialogueNotOpen = 8,
    /// The subscriber is admitted already.
    AlreadyAdmitted = 9,
    /// The live store has more records than the back-up has room for.
    BackUpTooSmall = 10,
}

/// The number that a caller is given.
impl From<Refusal> for u8 {
    ghost from_gives = { λ refusal number. number ≡ refusal_number refusal };

    fn from(refusal: Refusal) -> u8 {
        refusal as u8
    }
}

impl fmt::Display for Refusal {
    ghost output = { λ refusal. Some (refusal_text refusal) };

    fn fmt<W: fmt::Write>(&self, f: &mut fmt::Formatter<W>) -> fmt::Result {
        f.write_str(match self {
            Refusal::AreaTooShort => "the answer area has under 16 bytes",
            Refusal::UnknownCode => "the input is empty or starts with no event's code",
            Refusal::InputTooShort => "the input ends before the operands do",
            Refusal::OutOfRange => "an operand is outside its range",
            Refusal::StoreFull => "the store is full",
            Refusal::TooManyDialogues => "64 dialogues are open",
            Refusal::NumbersUsedUp => "the last dialogue number has been used",
            Refusal::DialogueNotOpen => "the dialogue is not open, or not yet sent",
            Refusal::AlreadyAdmitted => "the subscriber is admitted already",
            Refusal::BackUpTooSmall => "the back-up has too little room",
        })
    }
}

impl Error for Refusal {}
