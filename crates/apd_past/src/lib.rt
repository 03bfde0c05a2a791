//! The past of a store: terms in cells that are never dropped, and what variables were bound to at
//! each moment.
#![tactic(auto)]

mod ground;
pub mod journal;
pub mod laws;
pub mod maybe_number;
mod passing;
pub mod past;
mod spans;
pub mod then;
pub mod writing;
