//! What arithmetic gives.

use apd_arith::{Builtin, eval, truth};
use apd_rows::{Builder, Trial};
use apd_term::{Flat, Subst, apply};
use std::alloc::{AllocError, Global};

fn put_value_of(given: &mut Builder, expr: &Flat) {
    match eval(given.alloc, expr) {
        Ok(value) => given.put_shown(&value),
        Err(fault) => given.put_debug(&fault),
    }
}

/// Gives the value of an expression, or its first fault.
pub fn put_value(trial: &mut Trial) -> Option<()> {
    let expr = trial.term(0)?;
    put_value_of(&mut trial.given, &expr);
    // Dropped by calls, here and below: else each part is a step to check.
    drop(expr);
    Some(())
}

/// A term with another one for its first variable.
fn with_first(alloc: Global, term: &Flat, other: &Flat) -> Result<Flat, AllocError> {
    let first = Subst::single(alloc, 1, other)?;
    let made = apply(alloc, term, &first);
    drop(first);
    made
}

/// A term that is put for its own first variable so many times.
fn put_into_itself(alloc: Global, term: Flat, count: u32) -> Result<Flat, AllocError> {
    let mut deep = term;
    for _ in 0..count {
        let made = with_first(alloc, &deep, &deep);
        drop(deep);
        deep = made?;
    }
    Ok(deep)
}

/// The expression of a row, put into itself, and then 7 for its first variable.
fn deep_of_row(trial: &mut Trial) -> Option<Flat> {
    let term = trial.term(0)?;
    let deep = put_into_itself(trial.alloc, term, trial.row.number(1)).ok()?;
    let seven = Flat::integer(trial.alloc, 7).ok();
    let closed = match &seven {
        Some(seven) => with_first(trial.alloc, &deep, seven).ok(),
        None => None,
    };
    drop(seven);
    drop(deep);
    closed
}

/// Gives the size and the value of an expression that is put for its own first variable so many times, and then 7 for that.
pub fn put_deep_value(trial: &mut Trial) -> Option<()> {
    let closed = deep_of_row(trial)?;
    trial.given.put_shown(&closed.size());
    trial.given.put(" symbols: ");
    put_value_of(&mut trial.given, &closed);
    drop(closed);
    Some(())
}

fn put_truth_of(given: &mut Builder, atom: &Flat) -> Option<()> {
    if !atom.is_ground() || Builtin::of_atom(atom).is_none() {
        return None;
    }
    given.put(match truth(given.alloc, atom).ok()? {
        Some(true) => "true",
        Some(false) => "false",
        None => "a fault",
    });
    Some(())
}

/// Gives whether a ground atom of a built-in goal is true.
pub fn put_truth(trial: &mut Trial) -> Option<()> {
    let atom = trial.term(0)?;
    let put = put_truth_of(&mut trial.given, &atom);
    drop(atom);
    put
}
