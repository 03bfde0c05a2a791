//! What comes of a goal that is a term.

ghost use Rattle.std.specs.Prelude.{◌≡◌, IfOk};
ghost use Rattle.apd_arith.specs.Value.{value};
ghost use Rattle.apd_arith.specs.Truth.{compared};
ghost use Rattle.apd_trace.specs.BuiltIn.{outcome_of_is, outcome_of_comparison, outcome_of_two, outcome};

use apd_arith::{Builtin, Comparison, compare, eval};
use apd_frames::builtin::error_of;
use apd_term::Flat;
use apd_trace::Outcome;
use std::alloc::{AllocError, Global};

/// What comes of `is`: the left side is equated with the value of the right one.
fn outcome_of_is(alloc: Global, left: Flat, right: &Flat) -> Result<Outcome, AllocError>
    ensures { IfOk result (λ o. o ≡ outcome_of_is left (value right.now)) }
{
    match eval(alloc, right) {
        Ok(i) => Ok(Outcome::Equates(left, Flat::integer(alloc, i)?)),
        Err(fault) => Ok(Outcome::Faults(error_of(fault)?)),
    }
}

/// What comes of a comparison.
fn outcome_of_comparison(
    alloc: Global,
    comparison: Comparison,
    left: &Flat,
    right: &Flat,
) -> Result<Outcome, AllocError>
    ensures { IfOk result (λ o. o ≡ outcome_of_comparison
        (compared comparison (value left.now) (value right.now))) }
{
    match compare(alloc, comparison, left, right) {
        Ok(true) => Ok(Outcome::Succeeds),
        Ok(false) => Ok(Outcome::Fails),
        Err(fault) => Ok(Outcome::Faults(error_of(fault)?)),
    }
}

/// What comes of a built-in goal with two arguments.
fn outcome_of_two(
    alloc: Global,
    goal: Builtin,
    left: Flat,
    right: Flat,
) -> Result<Outcome, AllocError>
    ensures { IfOk result (λ o. o ≡ outcome_of_two goal left right) }
{
    let comparison = match goal {
        Builtin::True | Builtin::Fail => {
            // Dropped by calls, here and below: else each part is a step to check.
            drop(left);
            drop(right);
            return Ok(Outcome::Fails);
        }
        Builtin::Unify => return Ok(Outcome::Equates(left, right)),
        Builtin::Is => {
            let outcome = outcome_of_is(alloc, left, &right);
            drop(right);
            return outcome;
        }
        Builtin::Equal => Comparison::Equal,
        Builtin::Different => Comparison::Different,
        Builtin::Less => Comparison::Less,
        Builtin::LessEqual => Comparison::LessEqual,
        Builtin::Greater => Comparison::Greater,
        Builtin::GreaterEqual => Comparison::GreaterEqual,
    };
    let outcome = outcome_of_comparison(alloc, comparison, &left, &right);
    drop(left);
    drop(right);
    outcome
}

/// What a goal is, and if it is built in what comes of it.
pub(crate) fn outcome(alloc: Global, atom: &Flat) -> Result<Outcome, AllocError>
    ensures { IfOk result (λ o. o ≡ outcome atom.now) }
{
    match Builtin::of_atom(atom) {
        None => Ok(Outcome::User),
        Some(Builtin::True) => Ok(Outcome::Succeeds),
        Some(Builtin::Fail) => Ok(Outcome::Fails),
        Some(goal) => {
            let left = atom.arg(alloc, 0)?;
            let right = atom.arg(alloc, 1)?;
            outcome_of_two(alloc, goal, left, right)
        }
    }
}
