//! The check of a written log: each of its runs is made again, and each finding decided by the replies in it.
#![tactic(auto)]

mod again;
mod calls;
mod checked;
mod checking;
mod course;
mod fitting;
mod judging;
mod laws;
mod lines;
mod questions;
mod source;
mod state;
mod steps;

pub use checked::{Checked, Why};
pub use checking::{check, check_for};
pub use laws::{one_result, what_holds_is_right};
pub use state::LogState;
