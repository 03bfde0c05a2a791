//! Programs that are made of a number, for a demonstration: a clause for each node of a tree, of which one node is wrong.
#![tactic(auto)]

mod nodes;
mod programs;

pub use nodes::{MOST_NODES, node_true, wrong_node};
pub use programs::tree_program;
