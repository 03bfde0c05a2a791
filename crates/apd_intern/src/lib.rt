//! Terms in a list: the small ones written out, of the larger ones each distinct subterm kept once.
#![tactic(auto)]

mod hints;
mod node;
mod spelling;
pub mod term_list;
pub mod terms;

pub use term_list::TermList;
pub use terms::{TermId, Terms};
