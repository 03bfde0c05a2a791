//! Names by another numbering; no code that runs.
#![tactic(auto)]

pub mod laws;
