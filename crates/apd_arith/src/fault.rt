//! Why an expression has no value.

use std::alloc::AllocError;

/// Why an expression has no value; the first cause in the order of evaluation.
#[derive(Clone, Copy, PartialEq, Eq, Debug)]
pub enum ArithFault {
    /// A variable.
    Unbound,
    /// A name with this many arguments is no arithmetic operation. Its arguments aren't looked at.
    NotEvaluable,
    /// A value doesn't fit 64 bits with a sign.
    Overflow,
    /// A division by zero.
    ZeroDivisor,
    /// There was no memory left.
    Memory,
}

impl From<AllocError> for ArithFault {
    ghost use Rattle.std.specs.Prelude.{◌≡◌};
    ghost use Rattle.apd_arith.specs.declared.fault.ArithFault.TheVariants.{Memory};

    ghost from_gives = { λ _ e. e ≡ Memory };

    fn from(_: AllocError) -> Self {
        ArithFault::Memory
    }
}
