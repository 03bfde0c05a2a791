//! What the lines of a written log say, read from their bytes.
#![tactic(auto)]

mod calls;
mod claim;
mod claims;
mod ends;
mod entries;
mod form;
mod forms;
mod groups;
mod means;
mod parting;
mod reading;
mod saying;

pub use claim::Claim;
pub use parting::{CallLine, lasting_text};
pub use reading::MOST_READ_NAMES;
pub use saying::{LogLine, claim_at, goes_on};
