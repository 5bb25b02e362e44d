//! The visitor location register, above any record store.

#![tactic(auto)]

mod endings;
mod events;
mod forms;
mod invoke;
mod looking;
mod register;

pub use invoke::{Handed, Invoke};
pub use register::Vlr;
