//! Reading of Prolog clauses (ISO/IEC 13211-1 section 6.3).
//!
//! [`read_clause`] reads the clause that begins at a token, by a table of operators, in one pass:
//! its term, or its first fault with the fault's place in the text. The laws that each clause has a
//! reading or a first fault, and not two, are [`every_clause_reads`] and [`one_reading`].
#![tactic(auto)]

mod brackets;
mod codes;
mod frames;
mod lexeme;
mod lexemes;
mod phrase;
mod places;
mod reader;
mod variables;

pub use apd_causes::{Read, ReadFault};
pub use lexeme::{Lexeme, Sort};
pub use phrase::{Phrase, TOO_MANY_LEVELS};
pub use places::{Begin, Go, Inside};
pub use reader::{every_clause_reads, one_reading, read_clause};
