//! The record of a run: the boxes and points that its search made.
#![tactic(auto)]

mod active;
mod finding;
mod guesses;
pub mod held;
mod kept;
pub mod laws;
pub mod ongoing;
mod order;
pub mod record;
pub mod rows;

pub use apd_ports::{Point, PointId, Step};
pub use record::Record;
