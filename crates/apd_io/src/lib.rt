//! The outside of the debugger: a source of bytes, a sink of bytes, and files by name.
//!
//! Each of the three traits counts its faults, and tells its content where that is known: over
//! memory it is, over the operating system it isn't. An error is answered only where the count
//! rose by one in that call. A source also counts the bytes that it gave, and the reads from the
//! first on that gave none. A count stops at the greatest `u64`, where a further fault leaves it.
#![tactic(auto)]

mod calls;
mod disk_files;
mod fault;
mod files;
mod mem_files;
mod mem_sink;
mod mem_source;
mod sink;
mod source;
mod std_sink;
mod std_source;
mod tally;

pub use apd_base::MAX_FILE;
pub use disk_files::DiskFiles;
pub use fault::{Failed, LoadFault};
pub use files::Files;
pub use mem_files::MemFiles;
pub use mem_sink::MemSink;
pub use mem_source::MemSource;
pub use sink::Sink;
pub use source::Source;
pub use std_sink::StdSink;
pub use std_source::StdSource;
pub use tally::Tally;
