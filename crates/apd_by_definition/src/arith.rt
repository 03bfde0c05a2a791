//! The value of an expression by recursion.

ghost use Rattle.std.specs.Prelude.{◌≡◌, ◌≢◌, ◌≤◌};
ghost use Rattle.apd_term.specs.Term.{size};
ghost use Rattle.apd_arith.specs.Value.{value, of_one_by, of_two_by};

use crate::term::both;
use apd_arith::{ArithFault, BinaryOperation, UnaryOperation};
use apd_term::{Flat, Sym};
use std::alloc::Global;

/// The most symbols of an expression that is evaluated by recursion.
pub const MOST_SYMBOLS: u64 = 1000;

/// An integer, or why there is none.
type Value = Result<i64, ArithFault>;

/// The value of an operation on one argument, if there is one.
fn of_one(operation: Option<UnaryOperation>, argument: Value) -> Value
    ensures { result ≡ of_one_by operation argument }
{
    match (operation, argument) {
        (None, _) => Err(ArithFault::NotEvaluable),
        (_, Err(fault)) => Err(fault),
        (Some(known), Ok(x)) => known.of(x),
    }
}

/// The value of an operation on two arguments, if there is one.
fn of_two(operation: Option<BinaryOperation>, first: Value, second: Value) -> Value
    ensures { result ≡ of_two_by operation first second }
{
    match (operation, first, second) {
        (None, _, _) => Err(ArithFault::NotEvaluable),
        (_, Err(fault), _) => Err(fault),
        (_, _, Err(fault)) => Err(fault),
        (Some(known), Ok(x), Ok(y)) => known.of(x, y),
    }
}

/// The value of an expression of at most 1,000 symbols, or its first fault, from the values of all its arguments, by
/// recursion. `Memory` may come at any call.
pub fn eval(alloc: Global, expr: &Flat) -> Value
    requires { size expr.now ≤ MOST_SYMBOLS }
    ensures { result ≢ Err ArithFault.Memory → result ≡ value expr.now }
{
    match expr.symbols()[0] {
        Sym::Var(_) => Err(ArithFault::Unbound),
        Sym::Int(i) => Ok(i),
        Sym::Fun(name, 1) => {
            let only = expr.arg(alloc, 0)?;
            let value = eval(alloc, &only);
            // Dropped by calls, here and below: else each part is a step to check.
            drop(only);
            of_one(UnaryOperation::named(name), value)
        }
        Sym::Fun(name, 2) => {
            let sides = both(alloc, expr)?;
            let x = eval(alloc, &sides.left);
            let y = eval(alloc, &sides.right);
            drop(sides);
            of_two(BinaryOperation::named(name), x, y)
        }
        Sym::Fun(..) => Err(ArithFault::NotEvaluable),
    }
}
