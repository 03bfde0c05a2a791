//! The value of an expression.

ghost use Rattle.std.specs.Prelude.{◌≡◌, ◌≢◌, ◌≤◌, ◌∷◌, [], reverse, take, drop, vec_len, OnOk};
ghost use Rattle.apd_term.specs.Term.{arity_of};
ghost use Rattle.apd_arith.specs.Value.{value, value_of};
ghost use Rattle.apd_arith.specs.Stack.{with_symbol};

use crate::fault::ArithFault;
use crate::operation::{BinaryOperation, UnaryOperation};
use apd_term::{Flat, NameId, Sym};
use std::alloc::{AllocError, Global};

/// An integer, or why there is none.
pub type Value = Result<i64, ArithFault>;

/// The value of a name with an argument of this value.
pub fn value_of_one(name: NameId, argument: Value) -> Value
    ensures { result ≡ value_of name (argument ∷ []) }
{
    match UnaryOperation::named(name) {
        None => Err(ArithFault::NotEvaluable),
        Some(operation) => operation.of(argument?),
    }
}

/// The value of a name with two arguments of these values.
pub fn value_of_two(name: NameId, first: Value, second: Value) -> Value
    ensures { result ≡ value_of name (first ∷ second ∷ []) }
{
    match BinaryOperation::named(name) {
        None => Err(ArithFault::NotEvaluable),
        Some(operation) => operation.of(first?, second?),
    }
}

/// The value of a name with arguments of these values, the last argument first.
fn value_of(name: NameId, arguments: &[Value]) -> Value
    ensures { result ≡ value_of name (reverse arguments.now) }
{
    match arguments {
        [only] => value_of_one(name, *only),
        [second, first] => value_of_two(name, *first, *second),
        _ => Err(ArithFault::NotEvaluable),
    }
}

/// Takes the values of a name's arguments off the stack, the first argument on top, and gives the value of the name
/// with these arguments.
fn applied(values: &mut Vec<Value>, name: NameId, arity: u8) -> Value
    requires { arity ≤ vec_len values.old }
    ensures value { result ≡ value_of name (take arity (reverse values.old.items)) }
    ensures rest { reverse values.new.items ≡ drop arity (reverse values.old.items) }
{
    let rest = values.len() - arity as usize;
    let value = value_of(name, &values[rest..]);
    values.truncate(rest);
    value
}

/// Puts the value of the term that begins with a symbol on the stack, in place of those of its arguments.
fn put(values: &mut Vec<Value>, symbol: Sym) -> Result<(), AllocError>
    requires { arity_of symbol ≤ vec_len values.old }
    ensures { OnOk result (reverse values.new.items ≡
        with_symbol symbol (reverse values.old.items)) }
{
    let value = match symbol {
        Sym::Var(_) => Err(ArithFault::Unbound),
        Sym::Int(i) => Ok(i),
        Sym::Fun(name, arity) => applied(values, name, arity),
    };
    values.push(value)?;
    Ok(())
}

/// The value of an expression, or its first fault in the order of evaluation. `Memory` may come at any call.
///
/// The symbols are passed from the last one to the first; the values of the terms that begin behind a symbol are on the
/// stack, the next one on top.
pub fn eval(alloc: Global, expr: &Flat) -> Result<i64, ArithFault>
    ensures { result ≢ Err ArithFault.Memory → result ≡ value expr.now }
{
    let symbols = expr.symbols();
    let mut values = Vec::new(alloc);
    'symbols: for at in (0..symbols.len()).rev() {
        put(&mut values, symbols[at])?;
    }
    values[0]
}
