//! The trace and the run of a query, by recursion over the depth of the search.

mod frames;
mod goals;
mod outcome;
mod place;
mod ports;
pub mod run;
pub mod search;
mod searched;
mod tuples;

pub use run::{PlainRun, plain_run};
pub use search::trace;
