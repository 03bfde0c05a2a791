//! Why cases can't be tried.

use std::alloc::{AllocError, AllocFailed};
use std::fmt;

/// Why cases can't be tried.
#[derive(Clone, Copy)]
pub enum CaseFault {
    /// A file isn't there, can't be read, or isn't UTF-8.
    File,
    /// A line is none of those that a file of cases has.
    Line,
    /// There is no memory.
    Memory,
}

impl From<AllocError> for CaseFault {
    fn from(_: AllocError) -> Self {
        CaseFault::Memory
    }
}

impl<T: Drop> From<AllocFailed<T>> for CaseFault {
    fn from(_: AllocFailed<T>) -> Self {
        CaseFault::Memory
    }
}

impl fmt::Display for CaseFault {
    fn fmt<W: fmt::Write>(&self, f: &mut fmt::Formatter<W>) -> fmt::Result {
        let text = match self {
            CaseFault::File => "can't be read",
            CaseFault::Line => "a line that no case has",
            CaseFault::Memory => "no memory",
        };
        write!(f, "{text}")
    }
}
