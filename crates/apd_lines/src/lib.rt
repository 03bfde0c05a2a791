//! Lines as they are read: a line holds no clause, or one.
//!
//! A line in a command's place and one in a reply's place are read the same way, by the operators and the names of the log.
#![tactic(auto)]

mod lines;

pub use lines::{LineRead, read_line, read_text};
