//! The errors of the outside.

use thiserror::Error;

/// A read or a write that failed. The count of faults of its source or sink rose.
#[derive(Debug, Clone, Copy, Drop, Error)]
#[error("the call failed")]
pub struct Failed;

/// Why a file wasn't loaded.
#[derive(Debug, Clone, Copy, Drop, Error)]
pub enum LoadFault {
    /// The file isn't there or can't be read. The count of faults rose.
    #[error("the file can't be read")]
    Failed,
    /// The file is longer than [`MAX_FILE`](crate::MAX_FILE) bytes. The number is always one more
    /// than that, since no more bytes are looked at.
    #[error("{0} bytes are too many for a file")]
    TooLong(u64),
    /// Memory ran out.
    #[error("out of memory")]
    Memory,
}
