//! What the log of a session tells, and when its entries are right.
#![tactic(auto)]

pub mod laws;
