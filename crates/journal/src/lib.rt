//! A site's journal: text, one call to a line.

#![tactic(auto)]

mod call;
mod fault;
mod hex;
mod reading;

pub use call::{Call, Exchanges, Spending, StoreKind, Visitor};
pub use fault::Fault;
pub use hex::hex_pair;
pub use reading::read_line;
