//! Replies and trust that are known: the reply that a term is, the oracle file, and an oracle that has all its replies
//! beforehand.
#![tactic(auto)]

mod file;
mod laws;
mod scripted;
mod statements;
mod told;
mod values;

pub use file::{OracleText, Stated, oracle_file};
pub use laws::one_statement_list;
pub use scripted::{Scripted, fits_asked};
pub use statements::FileForm;
pub use told::{truth_told, values_told, word_told};
pub use values::{are_true_if_builtin, unknown_count, variable_count};
