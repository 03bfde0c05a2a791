//! What comes of a built-in goal.

ghost use Rattle.std.specs.Prelude.{◌≡◌, ◌≢◌, IfOk, OnOk};
ghost use Rattle.apd_trace.specs.BuiltIn.{error_of};

use apd_arith::ArithFault;
use apd_causes::RunError;
use std::alloc::AllocError;

/// What came of a goal.
#[derive(Clone, Copy, PartialEq, Eq)]
pub enum Solved {
    /// It is one of the program's.
    Program,
    /// It ends in an error.
    Fault(RunError),
    Failed,
    /// It succeeded, and its frame was entered.
    Entered,
}

/// The error of an evaluation's fault, unless it is want of memory.
pub fn error_of(fault: ArithFault) -> Result<RunError, AllocError>
    ensures error { IfOk result (λ e. e ≡ error_of fault) }
    ensures fault { OnOk result (fault ≢ ArithFault.Memory) }
{
    match fault {
        ArithFault::Unbound => Ok(RunError::Unbound),
        ArithFault::NotEvaluable => Ok(RunError::NotEvaluable),
        ArithFault::Overflow => Ok(RunError::Overflow),
        ArithFault::ZeroDivisor => Ok(RunError::ZeroDivisor),
        ArithFault::Memory => Err(AllocError),
    }
}
