//! Sets of places, a bit for each, which are met, joined and looked at 64 places at a time.
#![tactic(auto)]

mod rows;

pub use rows::Row;
