//! Lists of atoms in which instances of an atom, and those that it is an instance of, are looked up.
#![tactic(auto)]

mod columns;
mod digests;
mod gathered;
mod generals;
mod large;
mod nodes;
mod positions;
mod repeats;
mod room;
mod sharing;
mod specials;
mod unlike;
mod waiting;
mod walk;

pub use generals::Generals;
pub use specials::Specials;
