//! The goals of a conjunction.

use apd_term::standard::COMMA;
use apd_term::{Flat, Pred};
use std::alloc::{AllocError, Global};

/// A list of this term alone.
fn alone(alloc: Global, term: &Flat) -> Result<Vec<Flat>, AllocError> {
    let mut terms = Vec::new(alloc);
    terms.push(term.copy(alloc)?)?;
    Ok(terms)
}

/// Puts the sides of a conjunction on what waits, the left one last; false for any other goal.
fn put_sides(alloc: Global, waiting: &mut Vec<Flat>, goal: &Flat) -> Result<bool, AllocError> {
    match goal.pred() {
        Some(
            Pred {
                name: COMMA,
                arity: 2,
            },
        ) => {
            waiting.push(goal.arg(alloc, 1)?)?;
            waiting.push(goal.arg(alloc, 0)?)?;
            Ok(true)
        }
        _ => Ok(false),
    }
}

/// Takes a goal that waited: the sides of a conjunction wait, any other goal is the next one.
fn take_goal(
    alloc: Global,
    waiting: &mut Vec<Flat>,
    goals: &mut Vec<Flat>,
    goal: Flat,
) -> Result<(), AllocError> {
    if put_sides(alloc, waiting, &goal)? {
        return Ok(());
    }
    goals.push(goal)?;
    Ok(())
}

/// The goals of a conjunction from the left, in at most this many steps.
pub(crate) fn goals(alloc: Global, steps: usize, body: &Flat) -> Result<Vec<Flat>, AllocError> {
    let mut waiting = alone(alloc, body)?;
    let mut goals = Vec::new(alloc);
    for _ in 0..steps {
        let Some(goal) = waiting.pop() else {
            break;
        };
        take_goal(alloc, &mut waiting, &mut goals, goal)?;
    }
    Ok(goals)
}
