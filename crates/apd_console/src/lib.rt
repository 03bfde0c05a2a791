//! The console: the lines of an input, and printing to a sink.
//!
//! A line is the bytes up to a newline or the end of the input; an empty rest at the end is no
//! line. A line of more than 65,536 bytes is too long, and is taken to its end. No more than
//! 16,777,216 bytes are taken. What is heard of an input is a function of its bytes, of how it
//! ends and of how many bytes may still be taken; a console hands out its lines one by one.
#![tactic(auto)]

mod console;
mod draft;
mod line;

pub use apd_base::{MAX_INPUT, MAX_LINE};
pub use console::{CHUNK, Console};
pub use line::{Line, LineEnd};
