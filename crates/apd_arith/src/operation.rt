//! Arithmetic operations: their names, and what they make of values.

ghost use Rattle.std.specs.Prelude.{◌≡◌};
ghost use Rattle.apd_arith.specs.Integers.{divided, truncated, remainder, modulo};
ghost use Rattle.apd_arith.specs.Operations.{unary_operation, binary_operation, unary_value, binary_value};

use crate::fault::ArithFault;
use apd_term::NameId;
use apd_term::standard::{ABS, MAX, MIN, MINUS, MOD, PLUS, QUOTIENT, REM, TIMES};

/// An operation on one value.
#[derive(Clone, Copy)]
pub enum UnaryOperation {
    /// `-`, the value with the other sign.
    Negate,
    /// `abs`, the value without its sign.
    Absolute,
}

/// An operation on two values.
#[derive(Clone, Copy)]
pub enum BinaryOperation {
    /// `+`.
    Add,
    /// `-`.
    Subtract,
    /// `*`.
    Multiply,
    /// `//`, the quotient rounded towards zero.
    Quotient,
    /// `mod`, the remainder with the sign of the divisor.
    Modulo,
    /// `rem`, the remainder with the sign of the dividend.
    Remainder,
    /// `min`, the lesser of the two.
    Minimum,
    /// `max`, the greater of the two.
    Maximum,
}

/// The quotient rounded towards zero.
fn quotient(dividend: i64, divisor: i64) -> Result<i64, ArithFault>
    ensures { result ≡ divided truncated dividend divisor }
{
    if divisor == 0 {
        return Err(ArithFault::ZeroDivisor);
    }
    dividend.checked_div(divisor).ok_or(ArithFault::Overflow)
}

/// The remainder with the sign of the dividend.
fn remainder(dividend: i64, divisor: i64) -> Result<i64, ArithFault>
    ensures { result ≡ divided remainder dividend divisor }
{
    if divisor == 0 {
        return Err(ArithFault::ZeroDivisor);
    }
    Ok(dividend.wrapping_rem(divisor))
}

/// The remainder with the sign of the divisor.
fn modulo(dividend: i64, divisor: i64) -> Result<i64, ArithFault>
    ensures { result ≡ divided modulo dividend divisor }
{
    if divisor == 0 {
        return Err(ArithFault::ZeroDivisor);
    }
    let rest = dividend.wrapping_rem(divisor);
    if rest != 0 && (rest < 0) != (divisor < 0) {
        return Ok(rest + divisor);
    }
    Ok(rest)
}

impl UnaryOperation {
    /// The operation of this name with one argument, if there is one.
    pub fn named(name: NameId) -> Option<UnaryOperation>
        ensures { result ≡ unary_operation name }
    {
        match name {
            MINUS => Some(UnaryOperation::Negate),
            ABS => Some(UnaryOperation::Absolute),
            _ => None,
        }
    }

    /// What the operation makes of a value: `Overflow` of the least one.
    pub fn of(self, value: i64) -> Result<i64, ArithFault>
        ensures { result ≡ unary_value self value }
    {
        match self {
            UnaryOperation::Negate => value.checked_neg().ok_or(ArithFault::Overflow),
            UnaryOperation::Absolute => value.checked_abs().ok_or(ArithFault::Overflow),
        }
    }
}

impl BinaryOperation {
    /// The operation of this name with two arguments, if there is one.
    pub fn named(name: NameId) -> Option<BinaryOperation>
        ensures { result ≡ binary_operation name }
    {
        match name {
            PLUS => Some(BinaryOperation::Add),
            MINUS => Some(BinaryOperation::Subtract),
            TIMES => Some(BinaryOperation::Multiply),
            QUOTIENT => Some(BinaryOperation::Quotient),
            MOD => Some(BinaryOperation::Modulo),
            REM => Some(BinaryOperation::Remainder),
            MIN => Some(BinaryOperation::Minimum),
            MAX => Some(BinaryOperation::Maximum),
            _ => None,
        }
    }

    /// What the operation makes of two values: `ZeroDivisor` of a division by zero, and `Overflow` where the result
    /// doesn't fit 64 bits with a sign.
    pub fn of(self, first: i64, second: i64) -> Result<i64, ArithFault>
        ensures { result ≡ binary_value self first second }
    {
        match self {
            BinaryOperation::Add => first.checked_add(second).ok_or(ArithFault::Overflow),
            BinaryOperation::Subtract => first.checked_sub(second).ok_or(ArithFault::Overflow),
            BinaryOperation::Multiply => first.checked_mul(second).ok_or(ArithFault::Overflow),
            BinaryOperation::Quotient => quotient(first, second),
            BinaryOperation::Modulo => modulo(first, second),
            BinaryOperation::Remainder => remainder(first, second),
            BinaryOperation::Minimum => Ok(first.min(second)),
            BinaryOperation::Maximum => Ok(first.max(second)),
        }
    }
}
