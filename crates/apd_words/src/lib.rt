//! What the words of the command line ask for. The crate clap reads them; each value is read here, by rules of the program's own.
#![tactic(auto)]

mod command;
mod laws;
mod limits;
mod options;

pub use laws::{a_tree_stands_alone, limits_keep_their_rules};
pub use options::{Subject, Wanted, read_words};
