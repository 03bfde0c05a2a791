//! Diagnoses of wrong answers by records that are made by hand, without a run: no diagnosis needs a search.
#![tactic(auto)]

mod by_hand;
mod clauses;
mod insertion;
mod listed;
mod noting;
mod readers;
mod replay;
mod two_clauses;

pub use insertion::insertion_sort;
pub use two_clauses::finds_the_fact;
