//! Integer arithmetic of goals: the value of an expression, and whether a ground atom of a built-in goal is true.
//!
//! The operations are those of ISO/IEC 13211-1, section 9.1, on integers of 64 bits with a sign. A value is found by a
//! walk over a term's symbols with a stack of values, so the depth of a term has no limit of its own.
#![tactic(auto)]

pub mod comparison;
pub mod evaluation;
pub mod fault;
pub mod goal;
pub mod laws;
pub mod operation;
pub mod truths;

pub use comparison::{Comparison, compare};
pub use evaluation::{Value, eval, value_of_one, value_of_two};
pub use fault::ArithFault;
pub use goal::Builtin;
pub use operation::{BinaryOperation, UnaryOperation};
pub use truths::{are_ground, truth};
