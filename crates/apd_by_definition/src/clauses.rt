//! The clause that a term is, by recursion.

ghost use Rattle.std.specs.Prelude.{◌≡◌, ◌≢◌, ◌≤◌, ◌∷◌, [], ◌++◌, IfOk, IfErr, OnOk, Ok, Err};
ghost use Rattle.apd_term.specs.Term.{size};
ghost use Rattle.apd_clauses.specs.Bodies.{conjuncts, first_fault, body_fault, fact, parts_of, clause_from};

use crate::term::{Sides, both};
use apd_base::MOST_GOALS;
use apd_causes::BodyFault;
use apd_clauses::body::{begins_with, goal_fault, head_fault};
use apd_term::standard::{COMMA, GRAMMAR_ARROW, NECK};
use apd_term::{Atoms, Flat, Tuple};
use std::alloc::{AllocError, Global};

/// The most symbols of a term that is taken apart by recursion.
pub const MOST_SYMBOLS: u64 = 1000;

/// Puts copies of terms at the end of others.
fn append(alloc: Global, terms: &mut Atoms, more: &[Flat]) -> Result<(), AllocError>
    ensures { OnOk result (terms.new ≡ terms.old ++ more.now) }
{
    'more: for term in more {
        terms.push(term.copy(alloc)?)?;
    }
    Ok(())
}

/// The terms, and then copies of others.
pub(crate) fn joined(alloc: Global, mut terms: Atoms, more: &[Flat]) -> Result<Atoms, AllocError>
    ensures { IfOk result (λ all. all ≡ terms ++ more.now) }
{
    append(alloc, &mut terms, more)?;
    Ok(terms)
}

/// A copy of the term alone.
pub(crate) fn alone(alloc: Global, term: &Flat) -> Result<Atoms, AllocError>
    ensures { IfOk result (λ terms. terms ≡ term.now ∷ []) }
{
    let copied = term.copy(alloc)?;
    let mut terms = Atoms::new(alloc);
    terms.push(copied)?;
    Ok(terms)
}

/// The goals of a term of at most 1,000 symbols, by recursion.
pub fn goals_of(alloc: Global, term: &Flat) -> Result<Atoms, AllocError>
    requires { size term.now ≤ MOST_SYMBOLS }
    ensures { IfOk result (λ goals. goals ≡ conjuncts term.now) }
{
    if begins_with(term, COMMA, 2) {
        let sides = both(alloc, term)?;
        let goals = match goals_of(alloc, &sides.left) {
            Ok(goals) => goals,
            Err(fault) => {
                // Dropped by calls, here and below: else each part is a step to check.
                drop(sides);
                return Err(fault);
            }
        };
        let others = match goals_of(alloc, &sides.right) {
            Ok(others) => others,
            Err(fault) => {
                drop(goals);
                drop(sides);
                return Err(fault);
            }
        };
        let all = joined(alloc, goals, others.as_slice());
        drop(others);
        drop(sides);
        return all;
    }
    alone(alloc, term)
}

/// The first fault of goals from the left.
fn first_fault(goals: &[Flat]) -> Option<BodyFault>
    ensures { result ≡ first_fault goals.now }
{
    'goals: for goal in goals {
        if let Some(fault) = goal_fault(goal) {
            return Some(fault);
        }
    }
    None
}

/// The first fault of a body: that of its first 64 goals, or that there is another.
fn body_fault(goals: &[Flat]) -> Option<BodyFault>
    ensures { result ≡ body_fault goals.now }
{
    if goals.len() <= MOST_GOALS {
        return first_fault(goals);
    }
    first_fault(&goals[..MOST_GOALS]).or(Some(BodyFault::BodyOver))
}

/// The term as a head without goals.
fn fact(alloc: Global, term: &Flat) -> Result<Tuple, AllocError>
    ensures { IfOk result (λ c. c ≡ fact term.now) }
{
    let head = term.copy(alloc)?;
    let body = Atoms::new(alloc);
    Ok(Tuple { head, body })
}

/// The head H and the goals of B in `H :- B`; any other term is a head without goals.
fn parts_of(alloc: Global, term: &Flat) -> Result<Tuple, AllocError>
    requires { size term.now ≤ MOST_SYMBOLS }
    ensures { IfOk result (λ c. c ≡ parts_of term.now) }
{
    if begins_with(term, NECK, 2) {
        let sides = both(alloc, term)?;
        let body = goals_of(alloc, &sides.right)?;
        let Sides { left, right } = sides;
        drop(right);
        return Ok(Tuple { head: left, body });
    }
    fact(alloc, term)
}

/// The clause that a term of at most 1,000 symbols is, or its first fault; `Memory` may come at any call.
pub fn clause_of(alloc: Global, term: &Flat) -> Result<Tuple, BodyFault>
    requires { size term.now ≤ MOST_SYMBOLS }
    ensures ok { IfOk result (λ c. clause_from term.now ≡ Ok c) }
    ensures err { IfErr result (λ fault. fault ≢ BodyFault.Memory →
        clause_from term.now ≡ Err fault) }
{
    if begins_with(term, GRAMMAR_ARROW, 2) {
        return Err(BodyFault::Dcg);
    }
    let tuple = parts_of(alloc, term)?;
    let faults = head_fault(&tuple.head).or(body_fault(tuple.body.as_slice()));
    match faults {
        Some(fault) => {
            drop(tuple);
            Err(fault)
        }
        None => Ok(tuple),
    }
}
