//! What a store has, as it is read.

use crate::kept::KeptNote;
use apd_term::Sym;

/// What a store has: its cells, the notes of its trail, the oldest first, and how many variables.
#[derive(Clone, Copy)]
pub struct Live<'a> {
    pub cells: &'a [Sym],
    pub notes: &'a [KeptNote],
    pub variables: usize,
}
