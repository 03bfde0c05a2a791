//! Comparisons of two expressions by their values.

ghost use Rattle.std.specs.Prelude.{◌≡◌, ◌≢◌};
ghost use Rattle.apd_arith.specs.Value.{value};
ghost use Rattle.apd_arith.specs.Truth.{compares, compared};

use crate::evaluation::eval;
use crate::fault::ArithFault;
use apd_term::Flat;
use std::alloc::Global;

/// How two values are compared.
#[derive(Clone, Copy, PartialEq, Eq)]
pub enum Comparison {
    /// `=:=`.
    Equal,
    /// `=\=`.
    Different,
    /// `<`.
    Less,
    /// `=<`.
    LessEqual,
    /// `>`.
    Greater,
    /// `>=`.
    GreaterEqual,
}

impl Comparison {
    /// Whether two values compare so.
    pub fn holds(self, left: i64, right: i64) -> bool
        ensures { result ≡ compares self left right }
    {
        match self {
            Comparison::Equal => left == right,
            Comparison::Different => left != right,
            Comparison::Less => left < right,
            Comparison::LessEqual => left <= right,
            Comparison::Greater => left > right,
            Comparison::GreaterEqual => left >= right,
        }
    }
}

/// Whether the values of two expressions compare so, or the first fault: that of the left expression, then that of the
/// right one. `Memory` may come at any call.
pub fn compare(
    alloc: Global,
    comparison: Comparison,
    left: &Flat,
    right: &Flat,
) -> Result<bool, ArithFault>
    ensures { result ≢ Err ArithFault.Memory →
        result ≡ compared comparison (value left.now) (value right.now) }
{
    let x = eval(alloc, left)?;
    let y = eval(alloc, right)?;
    Ok(comparison.holds(x, y))
}
