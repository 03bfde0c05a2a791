//! A dialogue with a user: questions are said, and lines of the input are heard till one is a reply.
#![tactic(auto)]

mod asking;
mod dialogue;
mod lending;
mod spoken;
mod values;

pub use dialogue::Dialogue;
pub use spoken::{Spoken, spoken_of};
