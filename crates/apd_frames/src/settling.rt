//! What comes of a goal before any clause is tried.

ghost use Rattle.std.specs.Prelude.{◌≡◌, ◌<◌, ◌≤◌, length, IfOk};
ghost use Rattle.apd_term.specs.Term.{integer, predicate_of};
ghost use Rattle.apd_arith.specs.Builtins.{builtin_of_atom};
ghost use Rattle.apd_trace.specs.BuiltIn.{outcome_of_is, outcome_of_comparison, outcome_of_two};
ghost use Rattle.apd_trace.specs.declared.frame.Outcome.TheVariants.{Equates};
ghost use Rattle.apd_cells.specs.Store.{term_at, Keeps};
ghost use Rattle.apd_frames.specs.Solves.{Settles, SettlesBy};
ghost use Rattle.apd_frames.specs.Values.{value_at, compared_at};

use crate::builtin::{Solved, error_of};
use crate::evaluating::{compare_at, value_at};
use apd_arith::{Builtin, Comparison};
use apd_term::{Pred, Sym};
use apd_unify::store::{Cell, Store};
use std::alloc::{AllocError, Global};

/// The predicate of the term at a cell.
pub fn predicate_at(store: &Store, goal: Cell) -> Option<Pred>
    requires { goal.0 < length store.now.cells }
    ensures { result ≡ predicate_of (term_at store.now goal.0) }
{
    match store.symbol(goal) {
        Sym::Fun(name, arity) => Some(Pred { name, arity }),
        _ => None,
    }
}

/// The built-in goal at a cell, if it is one.
#[inline(always)]
fn builtin_at(store: &Store, goal: Cell) -> Option<Builtin>
    requires { goal.0 < length store.now.cells }
    ensures { result ≡ builtin_of_atom (term_at store.now goal.0) }
{
    Builtin::of(predicate_at(store, goal)?)
}

/// Makes the terms at two cells equal, where they have a unifier.
fn equate(store: &mut Store, left: Cell, right: Cell) -> Result<Solved, AllocError>
    requires left { left.0 < length store.old.cells }
    requires right { right.0 < length store.old.cells }
    ensures kept { Keeps store.old store.new }
    ensures cells { length store.old.cells ≤ length store.new.cells }
    ensures answer { IfOk result (λ r. SettlesBy
        (Equates (term_at store.old left.0) (term_at store.old right.0)) r store.old store.new) }
{
    let mark = store.mark();
    if store.unify(left, right)? {
        return Ok(Solved::Entered);
    }
    store.undo(mark);
    Ok(Solved::Failed)
}

/// Makes the term at a cell equal to an integer, where they have a unifier.
#[inline(always)]
fn assign(store: &mut Store, cell: Cell, value: i64) -> Result<Solved, AllocError>
    requires { cell.0 < length store.old.cells }
    ensures kept { Keeps store.old store.new }
    ensures cells { length store.old.cells ≤ length store.new.cells }
    ensures answer { IfOk result (λ r. SettlesBy
        (Equates (term_at store.old cell.0) (integer value)) r store.old store.new) }
{
    let mark = store.mark();
    let there = store.load_integer(value)?;
    if store.unify(cell, there)? {
        return Ok(Solved::Entered);
    }
    store.undo(mark);
    Ok(Solved::Failed)
}

/// Solves `is` of the terms at two cells.
#[inline(always)]
fn evaluate(store: &mut Store, alloc: Global, left: Cell, right: Cell) -> Result<Solved, AllocError>
    requires left { left.0 < length store.old.cells }
    requires right { right.0 < length store.old.cells }
    ensures kept { Keeps store.old store.new }
    ensures cells { length store.old.cells ≤ length store.new.cells }
    ensures answer { IfOk result (λ r. SettlesBy
        (outcome_of_is (term_at store.old left.0) (value_at store.old right.0))
        r store.old store.new) }
{
    match value_at(store, alloc, right) {
        Ok(value) => assign(store, left, value),
        Err(fault) => Ok(Solved::Fault(error_of(fault)?)),
    }
}

/// Solves a comparison of the terms at two cells.
#[inline(always)]
fn compare(
    store: &Store,
    alloc: Global,
    comparison: Comparison,
    left: Cell,
    right: Cell,
) -> Result<Solved, AllocError>
    requires left { left.0 < length store.now.cells }
    requires right { right.0 < length store.now.cells }
    ensures { IfOk result (λ r. SettlesBy
        (outcome_of_comparison (compared_at store.now comparison left.0 right.0))
        r store.now store.now) }
{
    match compare_at(store, alloc, comparison, left, right) {
        Ok(true) => Ok(Solved::Entered),
        Ok(false) => Ok(Solved::Failed),
        Err(fault) => Ok(Solved::Fault(error_of(fault)?)),
    }
}

/// Solves a built-in goal with the arguments at two cells.
#[inline(always)]
fn settle_two(
    store: &mut Store,
    alloc: Global,
    goal: Builtin,
    left: Cell,
    right: Cell,
) -> Result<Solved, AllocError>
    requires left { left.0 < length store.old.cells }
    requires right { right.0 < length store.old.cells }
    ensures kept { Keeps store.old store.new }
    ensures cells { length store.old.cells ≤ length store.new.cells }
    ensures answer { IfOk result (λ r. SettlesBy
        (outcome_of_two goal (term_at store.old left.0) (term_at store.old right.0))
        r store.old store.new) }
{
    let comparison = match goal {
        Builtin::True | Builtin::Fail => return Ok(Solved::Failed),
        Builtin::Unify => return equate(store, left, right),
        Builtin::Is => return evaluate(store, alloc, left, right),
        Builtin::Equal => Comparison::Equal,
        Builtin::Different => Comparison::Different,
        Builtin::Less => Comparison::Less,
        Builtin::LessEqual => Comparison::LessEqual,
        Builtin::Greater => Comparison::Greater,
        Builtin::GreaterEqual => Comparison::GreaterEqual,
    };
    compare(store, alloc, comparison, left, right)
}

/// Solves the goal at a cell, if it is built in. After want of memory some variables may be bound.
#[inline(always)]
pub fn settle(store: &mut Store, alloc: Global, goal: Cell) -> Result<Solved, AllocError>
    requires { goal.0 < length store.old.cells }
    ensures kept { Keeps store.old store.new }
    ensures cells { length store.old.cells ≤ length store.new.cells }
    ensures answer { IfOk result (λ r. Settles r store.old store.new (term_at store.old goal.0)) }
{
    match builtin_at(store, goal) {
        None => Ok(Solved::Program),
        Some(Builtin::True) => Ok(Solved::Entered),
        Some(Builtin::Fail) => Ok(Solved::Failed),
        Some(known) => {
            let (left, right) = store.two_arguments(goal);
            settle_two(store, alloc, known, left, right)
        }
    }
}
