//! What a search notes of the way back: where it may come back to, and what its links were before.
#![tactic(auto)]

pub mod notes;
