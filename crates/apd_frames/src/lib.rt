//! The clause instances that a search is in, over a store of cells with a trail.
//!
//! Frames are links to each other and to cells. A choice keeps marks only, and nothing is copied.
#![tactic(auto)]

pub mod ahead;
mod back;
pub mod builtin;
mod evaluating;
mod floor;
pub mod frames;
pub mod instance;
pub mod linked;
pub mod links;
pub mod measuring;
pub mod reading;
pub mod settling;
mod small;
