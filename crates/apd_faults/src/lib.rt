//! What faults and causes are called, and where in a text they are.
#![tactic(auto)]

mod names;
mod numbers;
mod places;

pub use names::{add_body_fault, add_cause, add_indicator, oracle_cause_name};
pub use numbers::{add_number, add_numbered, add_signed, numbered};
pub use places::{cause_place, read_place, token_place};
