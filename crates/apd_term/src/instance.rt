//! Instances of clauses.

use crate::tuple::Tuple;
use apd_base::ListOf;

/// An instance of a clause, with the clause's number.
#[derive(Drop)]
pub struct Instance {
    pub clause: u32,
    pub tuple: Tuple,
}

/// Instances of clauses in order.
pub type Instances = ListOf<Instance>;
