//! Lines of a journal, tried in tables: bytes in pairs of digits, and the words of a call.

#![tactic(auto)]

mod bytes;
mod words;
