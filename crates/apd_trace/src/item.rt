//! The items of a trace.

use apd_causes::RunError;
use apd_ports::{Event, Point};
use apd_term::{Flat, Tuple};

/// One item of a trace.
#[derive(Drop)]
pub enum Item {
    /// A port is passed.
    Passed(Event),
    /// An answer is given: the list of the values of the query's named variables.
    Answer(Flat),
    /// A point is made. It isn't shown.
    Made(Point),
    /// The trace ends with an error in the box with this number.
    Error(RunError, u32),
}
