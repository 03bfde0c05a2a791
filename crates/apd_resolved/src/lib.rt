//! Terms of a store with all bindings applied: what a cell's term is, how many symbols it has, and whether a variable
//! stands in it.
#![tactic(auto)]

pub mod counting;
mod quick;
mod reaching;
pub mod reading;
