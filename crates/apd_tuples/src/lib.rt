//! Tuples that were kept during a search: each is read in the past as it was when it was kept, and none is
//! written out before.
#![tactic(auto)]

mod cells;
mod packed;
mod putting;
pub mod spots;
pub mod tuples;
