//! The run of a query: what is printed of it as it goes, and what is kept of it.
#![tactic(auto)]

mod printer;
mod query;
mod state;

pub use query::run_query;
pub use state::{LastRun, State};
