//! Who replies about the program of a demonstration's tree: by which of its nodes are true.
#![tactic(auto)]

pub mod laws;
mod nodes;
pub mod tree;

pub use tree::TreeReplier;
