//! Events in bytes, tried in tables: both ends of every range, every truncation, bytes that follow, words, and the numbers of refusals.

#![tactic(auto)]

mod answers;
mod ranges;
mod refusals;
mod samples;
mod truncations;
mod words;
