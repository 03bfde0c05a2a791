//! What the texts of a log are read with.

use apd_ops::Ops;
use std::alloc::Global;

/// What texts are read with, and written again. The names are lent beside it: a text that is read may bring new ones.
#[derive(Clone, Copy)]
pub(crate) struct Means<'a> {
    /// Where what is made takes its memory.
    pub alloc: Global,
    /// The operators that the texts are written by.
    pub ops: &'a Ops,
}
