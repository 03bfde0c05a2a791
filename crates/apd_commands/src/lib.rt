//! Commands: what a line of the input asks for.
#![tactic(auto)]

mod commands;
mod filters;
mod reading;

pub use commands::Command;
pub use reading::command_for;
