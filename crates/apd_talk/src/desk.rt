//! A desk: what a conversation goes on over.

use crate::voice::Voice;
use apd_console::Console;
use apd_io::{Sink, Source};

/// What a conversation goes on over: a console hands out the lines of a source, and a voice says things.
#[derive(Drop)]
pub struct Desk<'s, 'v, 'l, 'k, S: Source, K: Sink> {
    /// The lines that weren't heard yet.
    pub console: &'s mut Console,
    /// Where they come from.
    pub input: &'s mut S,
    /// What says things.
    pub voice: &'v mut Voice<'l, 'k, K>,
}
