//! What a log is read by.

use apd_clauses::Program;
use apd_ops::Ops;

/// The program that a log was written for, and the operators that it leaves.
#[derive(Clone, Copy)]
pub(crate) struct Source<'a> {
    pub program: &'a Program,
    pub ops: &'a Ops,
}
