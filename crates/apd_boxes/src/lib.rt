//! The boxes of a record, with what each owns, in few bytes.
#![tactic(auto)]

mod boxes;
mod facts;
mod few;
mod packed;

pub use boxes::{Boxes, Call, KeptBox};
