//! What the plain programs give that compute a definition: a case each.

use crate::run_rows::{Case, case_of, put_item, put_ran};
use apd_base::{MOST_SHOWN, Text};
use apd_by_definition::engine::{PlainRun, plain_run};
use apd_by_definition::{arith, clauses, console, term, text, unify};
use apd_clauses::is_runnable;
use apd_rows::{BETWEEN, Builder, Scene, Sides, Trial, texts_of};
use apd_term::{Flat, apply};
use std::alloc::{AllocError, Global};

/// Gives the place of a text in a list of names, and their count where it isn't there.
fn put_number(trial: &mut Trial) -> Option<()> {
    let names = texts_of(trial.alloc, trial.row.text(1)).ok()?;
    let number = term::number_of(&names, trial.row.bytes(2));
    // Dropped by calls, here and below: else each part is a step to check.
    drop(names);
    trial.given.put_shown(&number);
    Some(())
}

/// Adds texts, with | behind each.
fn put_texts(given: &mut Builder, texts: &[Text]) {
    for text in texts {
        given.put_bytes(text.bytes());
        given.put_shown(&BETWEEN);
    }
}

/// Gives the lines of a text.
fn put_lines(trial: &mut Trial) -> Option<()> {
    let lines = console::lines_of(trial.alloc, trial.row.bytes(1)).ok()?;
    put_texts(&mut trial.given, lines.as_slice());
    drop(lines);
    Some(())
}

/// Gives the values that are shown for some names.
fn put_bindings_of(trial: &mut Trial, vars: &[Text]) -> Option<()> {
    let values = trial.term(1)?;
    let Scene { names, ops } = &*trial.scene;
    let bindings = text::bindings(trial.alloc, names, ops, vars, &values);
    drop(values);
    let bindings = bindings.ok()?;
    put_texts(&mut trial.given, bindings.as_slice());
    drop(bindings);
    Some(())
}

/// Gives the values that are shown for the names of a list.
fn put_bindings(trial: &mut Trial) -> Option<()> {
    let vars = texts_of(trial.alloc, trial.row.text(2)).ok()?;
    let put = put_bindings_of(trial, vars.as_slice());
    drop(vars);
    put
}

/// Gives the value of an expression.
fn put_value(trial: &mut Trial) -> Option<()> {
    let term = trial.term(1)?;
    if term.size() > arith::MOST_SYMBOLS {
        drop(term);
        return None;
    }
    let value = arith::eval(trial.alloc, &term);
    drop(term);
    trial.given.put_debug(&value);
    Some(())
}

/// Gives the goals of a conjunction.
fn put_goals(trial: &mut Trial) -> Option<()> {
    let term = trial.term(1)?;
    if term.size() > clauses::MOST_SYMBOLS {
        drop(term);
        return None;
    }
    let goals = clauses::goals_of(trial.alloc, &term);
    drop(term);
    let goals = goals.ok()?;
    trial.given.put_terms(&trial.scene, goals.as_slice());
    drop(goals);
    Some(())
}

/// Gives the clause that a term is.
fn put_clause(trial: &mut Trial) -> Option<()> {
    let term = trial.term(1)?;
    if term.size() > clauses::MOST_SYMBOLS {
        drop(term);
        return None;
    }
    let clause = clauses::clause_of(trial.alloc, &term);
    drop(term);
    match &clause {
        Ok(tuple) => trial.put_tuple(tuple),
        Err(fault) => trial.given.put_debug(fault),
    }
    drop(clause);
    Some(())
}

/// Gives the right side with its variables numbered anew.
fn put_canonical(trial: &mut Trial) -> Option<()> {
    let sides = trial.sides(1)?;
    let made = term::canonical(trial.alloc, &sides.right);
    drop(sides);
    trial.put_made_term(made);
    Some(())
}

/// Gives what a unifier makes of the left side.
fn put_unifier(trial: &mut Trial, sides: &Sides) -> Option<()> {
    match unify::textbook_unifier(trial.alloc, &sides.left, &sides.right).ok()? {
        None => trial.given.put("none"),
        Some(unifier) => {
            let made = apply(trial.alloc, &sides.left, &unifier);
            drop(unifier);
            trial.put_made_term(made);
        }
    }
    Some(())
}

/// Gives what a unifier of the row's sides makes of the left one.
fn put_unified(trial: &mut Trial) -> Option<()> {
    let sides = trial.sides(1)?;
    let put = put_unifier(trial, &sides);
    drop(sides);
    put
}

/// Gives what the plain program of this name gives.
pub fn put_plain(trial: &mut Trial) -> Option<()> {
    match trial.row.text(0) {
        "number_of" => put_number(trial),
        "lines_of" => put_lines(trial),
        "bindings" => put_bindings(trial),
        "canonical" => put_canonical(trial),
        "textbook_unifier" => put_unified(trial),
        "eval" => put_value(trial),
        "goals_of" => put_goals(trial),
        "clause_of" => put_clause(trial),
        _ => None,
    }
}

/// What the plain program shows of a run.
fn plain_ran(alloc: Global, case: &Case) -> Option<PlainRun> {
    let (budget, answers) = (case.budget, case.answers);
    if !is_runnable(&case.query.tuple) || budget > MOST_SHOWN || answers == 0 {
        return None;
    }
    plain_run(alloc, &case.loaded.program, &case.query, budget, answers).ok()?
}

/// Gives what the plain program shows of a run, port by port, and its end.
pub fn put_plain_run(trial: &mut Trial) -> Option<()> {
    let case = case_of(trial)?;
    let run = plain_ran(trial.alloc, &case);
    drop(case);
    let run = run?;
    for item in run.shown.iter() {
        put_item(&mut trial.given, &trial.scene, item);
    }
    put_ran(&mut trial.given, run.ran);
    drop(run);
    Some(())
}
