//! Values of expressions that stand in a store, mostly without a copy of them.

ghost use Rattle.std.specs.Prelude.{◌≡◌, ◌≢◌, ◌<◌, length, IfSome};
ghost use Rattle.apd_frames.specs.Values.{value_at, compared_at};

use apd_arith::{ArithFault, Comparison, Value, eval, value_of_one, value_of_two};
use apd_term::Sym;
use apd_unify::store::{Cell, Store};
use std::alloc::Global;

/// Expressions of so many levels are evaluated where they stand.
const MOST_LEVELS: u8 = 8;

/// The value of the expression at a cell; none, which says nothing of it, where it has more levels than these.
#[cycle(value)]
fn value_within(store: &Store, cell: Cell, levels: u8) -> Option<Value>
    requires { cell.0 < length store.now.cells }
    ensures { IfSome result (λ x. x ≡ value_at store.now cell.0) }
{
    if levels == 0 {
        return None;
    }
    match store.symbol(cell) {
        Sym::Var(_) => Some(Err(ArithFault::Unbound)),
        Sym::Int(i) => Some(Ok(i)),
        Sym::Fun(name, 1) => {
            let only = value_below(store, store.only_argument(cell), levels - 1)?;
            Some(value_of_one(name, only))
        }
        Sym::Fun(name, 2) => {
            let (left, right) = store.two_arguments(cell);
            let first = value_below(store, left, levels - 1)?;
            let second = value_below(store, right, levels - 1)?;
            Some(value_of_two(name, first, second))
        }
        Sym::Fun(..) => Some(Err(ArithFault::NotEvaluable)),
    }
}

/// The same, where an integer takes no call.
#[cycle(value)]
#[inline(always)]
fn value_below(store: &Store, cell: Cell, levels: u8) -> Option<Value>
    requires { cell.0 < length store.now.cells }
    ensures { IfSome result (λ x. x ≡ value_at store.now cell.0) }
{
    match store.symbol(cell) {
        Sym::Int(i) => Some(Ok(i)),
        _ => value_within(store, cell, levels),
    }
}

/// The value of the expression at a cell, or its first fault in the order of evaluation. `Memory` may come at any call.
#[inline(always)]
pub fn value_at(store: &Store, alloc: Global, cell: Cell) -> Value
    requires { cell.0 < length store.now.cells }
    ensures { result ≢ Err ArithFault.Memory → result ≡ value_at store.now cell.0 }
{
    if let Some(value) = value_below(store, cell, MOST_LEVELS) {
        return value;
    }
    let expr = store.resolve(cell)?;
    eval(alloc, &expr)
}

/// Whether the values of the expressions at two cells compare so, or the first fault: that of the left expression, then
/// that of the right one. `Memory` may come at any call.
#[inline(always)]
pub fn compare_at(
    store: &Store,
    alloc: Global,
    comparison: Comparison,
    left: Cell,
    right: Cell,
) -> Result<bool, ArithFault>
    requires left { left.0 < length store.now.cells }
    requires right { right.0 < length store.now.cells }
    ensures { result ≢ Err ArithFault.Memory →
        result ≡ compared_at store.now comparison left.0 right.0 }
{
    let x = value_at(store, alloc, left)?;
    let y = value_at(store, alloc, right)?;
    Ok(comparison.holds(x, y))
}
