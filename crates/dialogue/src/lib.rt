//! Dialogues with a home register: the subscriber data that is sent in them, drafts, and the table of open dialogues.

#![tactic(auto)]

mod data;
mod draft;
mod group;
mod row;
mod table;

pub use data::{BasicServices, Status, SubscriberData, SubscriberInfo};
pub use draft::take_message;
pub use group::{Group, read_group};
pub use row::{Coming, Dialogue, Met, Stage};
pub use table::Table;
