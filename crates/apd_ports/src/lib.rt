//! Ports of boxes (Byrd 1980): what a tracer passes and comes to, what it is shown to, and which ports are printed.
#![tactic(auto)]

pub mod event;
pub mod filter;
pub mod hook;
pub mod laws;
pub mod point;

pub use event::{Event, Port};
pub use filter::{Admit, Filter};
pub use hook::{Hook, HookFault, Shown};
pub use point::{BUILTIN, Point, PointId, Step};
