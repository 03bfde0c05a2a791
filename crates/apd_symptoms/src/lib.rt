//! Symptoms: what a command says is wrong with the last run, and the line of what a diagnosis finds.
#![tactic(auto)]

mod chains;
mod symptoms;
mod unanswered;

pub use chains::stopped_chain;
pub use symptoms::{exit_of, line_found};
pub use unanswered::unanswered_box;
