//! What a subscriber is known by: keys, the digits of an IMSI, and why a call is refused.

#![tactic(auto)]

mod digits;
mod hlr_id;
mod identity;
mod imsi;
mod reading;
mod refusal;
mod tmsi;

pub use hlr_id::HlrId;
pub use identity::Key;
pub use imsi::{IMSI_LIMIT, Imsi};
pub use reading::{big_endian, number_at, read_key};
pub use refusal::Refusal;
pub use tmsi::{TMSI_LIMIT, Tmsi};
