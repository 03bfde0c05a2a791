//! What is known of a program, as a text: the replies of a store and the predicates that it trusts, written as the statements
//! of an oracle file.
#![tactic(auto)]

mod laws;
mod ranges;
mod statements;
mod text;

pub use laws::known_reads_back;
pub use text::known_text;
