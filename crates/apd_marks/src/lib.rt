//! What terms are found by: marks, which are numbers that several may share, and keys, which no two terms share.
#![tactic(auto)]

mod keys;
mod mixing;
mod places;
mod positions;

pub use keys::{KeyPart, key_of};
pub use mixing::{mixed, with_term};
pub use places::{Places, forget, note, with_mark};
pub use positions::{ANY_TERM, Parent, TOP, all_marks, marks_of, put_parent, put_parents, whole};
