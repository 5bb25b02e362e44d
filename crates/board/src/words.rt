//! What is printed in a form of its own.
use event::{ANSWER_LENGTH, Answer, Event};
use std::fmt;

/// An event and its answer, which is printed in bytes first.
#[derive(Clone, Copy)]
pub struct Answered<'a> {
    pub event: Event<'a>,
    pub answer: Answer,
    pub bytes: [u8; ANSWER_LENGTH],
}

impl fmt::Display for Answered<'_> {
    fn fmt<W: fmt::Write>(&self, f: &mut fmt::Formatter<W>) -> fmt::Result {
        for byte in self.bytes {
            write!(f, "{byte:02X}")?;
        }
        let event = self.event;
        let answer = self.answer;
        write!(f, " {event}: {answer}")
    }
}

/// What may be absent, printed as `none` then.
#[derive(Clone, Copy)]
pub struct OrNone<T>(pub Option<T>);

impl<T: fmt::Display> fmt::Display for OrNone<T> {
    fn fmt<W: fmt::Write>(&self, f: &mut fmt::Formatter<W>) -> fmt::Result {
        match &self.0 {
            Some(value) => write!(f, "{value}"),
            None => write!(f, "none"),
        }
    }
}
