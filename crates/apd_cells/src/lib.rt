//! Terms in cells, with bindings that can be undone, and with the sizes of terms that are known.
#![tactic(auto)]

mod extents;
pub mod first;
pub mod front;
pub mod heap;
pub mod kept;
pub mod known;
pub mod live;
pub mod order;
pub mod slots;
mod symbols;
pub mod walk;
