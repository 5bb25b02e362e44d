//! What each event comes to for one subscriber, whatever else a visitor register holds: records, indicators and plans.

#![tactic(auto)]

mod calls;
mod contacts;
mod plan;
mod received;
mod record;
mod soundness;
mod updates;

pub use calls::{plan_reach, plan_roaming_number};
pub use contacts::{Auth, plan_access, plan_outgoing, plan_registration};
pub use plan::Plan;
pub use received::Received;
pub use record::{Indicator, Place, Record};
pub use soundness::{data_law, stays_sound};
pub use updates::{Outcome, plan_end, plan_update};
