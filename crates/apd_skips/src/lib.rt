//! Atoms that are kept with skips over their subterms, by which instances are told.
#![tactic(auto)]

mod kept;
mod skips;

pub use kept::{Kept, KeptAtoms};
pub use skips::arity_of;
