//! The law that what the entries of a session claim is good for the check of its log; no code here runs.
#![tactic(auto)]

pub mod laws;
