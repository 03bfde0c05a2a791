//! The law that the texts of a session's entries say what the entries claim; no code here runs.
#![tactic(auto)]

pub mod laws;
