//! What is made of clauses, and what their predicates are.

use apd_causes::BodyFault;
use apd_clauses::{
    AddFault, Clause, Program, clause_of, goals_of, is_clause, is_runnable, kind_of,
};
use apd_rows::{Builder, Scene, Sides, Trial};
use apd_term::standard::NECK;
use apd_term::{Atoms, Flat, Pred, Tuple};
use std::alloc::{AllocError, Global};

/// The most arguments of a predicate whose kind is told.
const MOST_ARGUMENTS: u8 = 9;

/// Adds a fault, with the indicator of its predicate.
pub fn put_fault(given: &mut Builder, scene: &Scene, fault: BodyFault) {
    let (word, pred) = match fault {
        BodyFault::HeadIsBuiltin(pred) => ("HeadIsBuiltin(", pred),
        BodyFault::Impure(pred) => ("Impure(", pred),
        other => return given.put_debug(&other),
    };
    given.put(word);
    given.put_indicator(scene, pred);
    given.put(")");
}

/// Gives the head and the goals of a clause, or its first fault.
pub fn put_clause(trial: &mut Trial) -> Option<()> {
    let term = trial.term(0)?;
    let found = clause_of(trial.alloc, &term);
    // Dropped by calls, here and below: else each part is a step to check.
    drop(term);
    match &found {
        Ok(tuple) => trial.put_tuple(tuple),
        Err(fault) => put_fault(&mut trial.given, &trial.scene, *fault),
    }
    drop(found);
    Some(())
}

/// Gives the goals of a conjunction.
pub fn put_goals(trial: &mut Trial) -> Option<()> {
    let term = trial.term(0)?;
    let goals = goals_of(trial.alloc, &term);
    drop(term);
    let goals = goals.ok()?;
    trial.given.put_terms(&trial.scene, goals.as_slice());
    drop(goals);
    Some(())
}

/// Gives how many goals a body has, and which is the last.
fn put_last_goal(trial: &mut Trial, body: &Flat) -> Option<()> {
    let goals = goals_of(trial.alloc, body).ok()?;
    trial.given.put_shown(&goals.len());
    trial.given.put(" goals, ");
    if let Some(last) = goals.as_slice().last() {
        trial.put_term(last);
    }
    trial.given.put(" the last: ");
    drop(goals);
    Some(())
}

/// The body of a rule.
fn body_of(alloc: Global, rule: &Flat) -> Option<Flat> {
    let Some(
        Pred {
            name: NECK,
            arity: 2,
        },
    ) = rule.pred()
    else {
        return None;
    };
    rule.arg(alloc, 1).ok()
}

/// Gives how many goals a rule's body has, which is the last, and how many a clause with it has, or its fault.
fn put_rule(trial: &mut Trial, rule: &Flat) -> Option<()> {
    let body = body_of(trial.alloc, rule)?;
    let put = put_last_goal(trial, &body);
    drop(body);
    put?;
    match clause_of(trial.alloc, rule) {
        Ok(tuple) => {
            trial.given.put_shown(&tuple.body.len());
            drop(tuple);
        }
        Err(fault) => put_fault(&mut trial.given, &trial.scene, fault),
    }
    Some(())
}

/// Gives how many goals a long body has, which is the last, and how many a clause with it has, or its fault.
pub fn put_long_body(trial: &mut Trial) -> Option<()> {
    let mut rule = Builder::new(trial.alloc);
    rule.put("a :- ");
    trial.row.put_repeated(0, &mut rule);
    rule.put(" .");
    let first = trial.scene.first(trial.alloc, rule.bytes());
    drop(rule);
    match first {
        Ok(first) => {
            let put = put_rule(trial, &first.read.term);
            drop(first);
            put
        }
        Err(_) => None,
    }
}

/// Adds so many copies of a goal.
fn put_copies(alloc: Global, body: &mut Atoms, goal: &Flat, count: u32) -> Result<(), AllocError> {
    for _ in 0..count {
        let copy = goal.copy(alloc)?;
        body.push(copy)?;
    }
    Ok(())
}

/// The left side as the head, and so many copies of the right one as the body.
fn tuple_of(alloc: Global, sides: &Sides, count: u32) -> Option<Tuple> {
    let head = sides.left.copy(alloc).ok()?;
    let mut body = Atoms::new(alloc);
    match put_copies(alloc, &mut body, &sides.right, count) {
        Ok(()) => Some(Tuple { head, body }),
        Err(_) => {
            drop(body);
            drop(head);
            None
        }
    }
}

/// Gives whether a head with so many copies of a goal may be run, and be a clause.
pub fn put_runnable(trial: &mut Trial) -> Option<()> {
    let sides = trial.sides(0)?;
    let tuple = tuple_of(trial.alloc, &sides, trial.row.number(1));
    drop(sides);
    let tuple = tuple?;
    trial.given.put_shown(&is_runnable(&tuple));
    trial.given.put(" ");
    trial.given.put_shown(&is_clause(&tuple));
    drop(tuple);
    Some(())
}

/// Adds a clause of the head and the goal to a program; none where they make no clause.
fn add(alloc: Global, program: &mut Program, sides: &Sides) -> Option<Result<u32, AddFault>> {
    let tuple = tuple_of(alloc, sides, 1)?;
    if !is_clause(&tuple) {
        drop(tuple);
        return None;
    }
    Some(program.add(Clause { tuple, line: 1 }))
}

/// Adds a clause to a program so many times, and gives what is said of the last one, and how many clauses there are then.
fn put_filling(
    given: &mut Builder,
    program: &mut Program,
    sides: &Sides,
    count: u32,
) -> Option<()> {
    for added in 1..=count {
        let said = add(given.alloc, program, sides)?;
        if added == count {
            given.put_debug(&said);
        }
    }
    given.put(", ");
    given.put_shown(&program.count());
    given.put(" clauses");
    Some(())
}

/// Gives what adding a clause so many times gives at the end, and how many clauses there are then.
pub fn put_filled(trial: &mut Trial) -> Option<()> {
    let sides = trial.sides(0)?;
    let mut program = Program::new(trial.alloc);
    let count = trial.row.number(1);
    let put = put_filling(&mut trial.given, &mut program, &sides, count);
    drop(program);
    drop(sides);
    put
}

/// Gives what the predicates of a name are, with no argument and with 1 to 9.
pub fn put_kinds(trial: &mut Trial) -> Option<()> {
    let name = trial.scene.name(trial.row.text(0)).ok()?;
    for arity in 0..=MOST_ARGUMENTS {
        trial.given.put(if arity == 0 { "" } else { " " });
        trial.given.put_debug(&kind_of(Pred { name, arity }));
    }
    Some(())
}
