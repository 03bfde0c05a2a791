//! The frames of a search, and tuples that were kept of them: each can be read later as it was when it
//! was kept, and none is written out before.
#![tactic(auto)]

mod facts;
pub mod following;
mod placing;
pub mod tie;
