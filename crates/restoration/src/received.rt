//! What an event in bytes is answered.
use event::Answer;

/// How many bytes the event took, and the answer, whose sixteen bytes stand in the answer area.
#[derive(Clone, Copy, PartialEq, Eq, Debug)]
pub struct Received {
    pub length: usize,
    pub answer: Answer,
}
