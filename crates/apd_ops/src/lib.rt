//! Operators and their table (ISO/IEC 13211-1 section 6.3.4).
//!
//! A name has at most one meaning as a prefix operator and at most one as an infix operator. No
//! table has two operators of one priority of which one groups to the right and the other to the
//! left, so each list of tokens has at most one reading.
#![tactic(auto)]

mod op;
mod standard;
mod table;

pub use op::{ARGUMENT_PRIORITY, MOST_PRIORITY, Op, OpFault, OpKind};
pub use table::Ops;
