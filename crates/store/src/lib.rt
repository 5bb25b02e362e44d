//! Record stores: what a store means, rows in key order, and a store with a back-up.

#![tactic(auto)]

mod backed;
mod meaning;
mod order;
mod room;
mod row;
mod rows;
mod rows_store;

pub use backed::Backed;
pub use meaning::RecordStore;
pub use room::{MOST_ROOM, room_for};
pub use row::Row;
pub use rows::Rows;

#[cfg(test)]
mod tests;
