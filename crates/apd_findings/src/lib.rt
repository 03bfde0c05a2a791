//! Whether a finding follows from replies, from trust and from what a record shows.
#![tactic(auto)]

mod affirming;
mod always;
mod calling;
mod candidates;
mod closing;
mod descending;
mod finding;
mod granting;
mod keys;
mod orders;
mod parted;
mod reaching;
mod wrong;

pub use always::is_always_true;
pub use calling::{NamedCall, is_violation};
pub use candidates::are_candidates_by_replies;
pub use closing::is_uncovered;
pub use descending::do_descend;
pub use finding::{is_by_replies, prepare};
pub use granting::is_granted;
pub use parted::Parted;
pub use wrong::is_wrong;
