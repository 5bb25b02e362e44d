//! What a visitor register is told and what it says: events in bytes and as a type, and answers.

#![tactic(auto)]

mod answer;
mod decoding;
mod events;
mod operands;
mod words;

pub use answer::{ANSWER_LENGTH, Answer, Handling, Ignored, Kind, Opened, Reply, Subject};
pub use decoding::{Decoded, decode, decoding_law};
pub use events::{Event, GROUP_LENGTH};
