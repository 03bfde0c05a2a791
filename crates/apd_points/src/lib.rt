//! The points of a record, in few bytes.
#![tactic(auto)]

mod kept;
mod packed;
mod placed;
mod points;

pub use kept::{KeptPoint, Span, TuplePlace};
pub use packed::WholePoint;
pub use placed::PlacedPoint;
pub use points::Points;
