//! Whether the plain program loads a text as the layer does.

use apd_arith::Builtin;
use apd_clauses::{Clause, Program};
use apd_load::{LoadText, Loaded, Note};
use apd_ops::Ops;
use apd_plain_load::load::{Plain, plain_load};
use apd_rows::{MOST_ROW_NAMES, Scene};
use apd_term::{Flat, NameId, Names, Pred, Tuple};
use std::alloc::{AllocError, Global};

fn is_noted(notes: &[Note], pred: Pred) -> bool {
    for note in notes {
        if note.pred == pred {
            return true;
        }
    }
    false
}

fn has_a_clause(clauses: &[Clause], pred: Pred) -> bool {
    for clause in clauses {
        if clause.tuple.head.pred() == Some(pred) {
            return true;
        }
    }
    false
}

/// Whether a predicate is built in, noted, or the head of a clause.
fn is_known(notes: &[Note], clauses: &[Clause], pred: Pred) -> bool {
    Builtin::of(pred).is_some() || is_noted(notes, pred) || has_a_clause(clauses, pred)
}

/// Notes the goals of a clause that are not known.
fn note(notes: &mut Vec<Note>, clauses: &[Clause], clause: &Clause) -> Result<(), AllocError> {
    for goal in clause.tuple.body.as_slice() {
        if let Some(pred) = goal.pred()
            && !is_known(notes.as_slice(), clauses, pred)
        {
            notes.push(Note {
                line: clause.line,
                pred,
            })?;
        }
    }
    Ok(())
}

fn warnings(alloc: Global, clauses: &[Clause]) -> Result<Vec<Note>, AllocError> {
    let mut notes = Vec::new(alloc);
    for clause in clauses {
        note(&mut notes, clauses, clause)?;
    }
    Ok(notes)
}

fn are_same(terms: &[Flat], others: &[Flat]) -> bool {
    for (term, other) in terms.iter().zip(others.iter()) {
        if !term.same(other) {
            return false;
        }
    }
    terms.len() == others.len()
}

fn is_same(tuple: &Tuple, other: &Tuple) -> bool {
    tuple.head.same(&other.head) && are_same(tuple.body.as_slice(), other.body.as_slice())
}

/// Whether a program has these clauses.
fn has_clauses(program: &Program, clauses: &[Clause]) -> bool {
    for number in 0..program.count() {
        let clause = program.clause(number + 1);
        let same = match clauses.get(number as usize) {
            Some(other) => clause.line == other.line && is_same(&clause.tuple, &other.tuple),
            None => false,
        };
        if !same {
            return false;
        }
    }
    program.count() as usize == clauses.len()
}

/// Whether each name means the same as an operator.
fn are_operators(names: &Names, ops: &Ops, others: &Ops) -> bool {
    for id in 0..names.count().min(MOST_ROW_NAMES) {
        let name = NameId(id as u32);
        if ops.prefix(name) != others.prefix(name) || ops.infix(name) != others.infix(name) {
            return false;
        }
    }
    true
}

/// Whether a load has what the plain program gives, and warns of what is called and has no clauses.
fn has_all(
    alloc: Global,
    scene: &Scene,
    loaded: &Loaded,
    plain: &Plain,
) -> Result<bool, AllocError> {
    let clauses = plain.clauses.as_slice();
    let warnings = warnings(alloc, clauses)?;
    Ok(
        has_clauses(&loaded.program, clauses)
            && are_operators(&scene.names, &loaded.ops, &plain.ops)
            && loaded.passed.as_slice() == plain.passed.as_slice()
            && loaded.warnings.as_slice() == warnings.as_slice(),
    )
}

/// Whether two loads of a text are one.
fn is_one(
    alloc: Global,
    scene: &Scene,
    given: &Result<Loaded, LoadText>,
    plain: &Result<Plain, LoadText>,
) -> Result<bool, AllocError> {
    match (given, plain) {
        (Err(fault), Err(other)) => Ok(fault == other),
        (Ok(loaded), Ok(plain)) => has_all(alloc, scene, loaded, plain),
        _ => Ok(false),
    }
}

/// Whether the plain program makes the same of a text.
pub fn is_alike(
    alloc: Global,
    scene: &Scene,
    text: &[u8],
    given: &Result<Loaded, LoadText>,
) -> Result<bool, AllocError> {
    let mut names = Names::standard(alloc)?;
    let plain = plain_load(alloc, &mut names, text);
    drop(names);
    let alike = is_one(alloc, scene, given, &plain);
    drop(plain);
    alike
}
