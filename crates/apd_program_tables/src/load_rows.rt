//! What texts of programs are loaded as.

use crate::alike_rows::is_alike;
use crate::clause_rows::put_fault;
use apd_base::MAX_FILE;
use apd_clauses::{Program, goals_of};
use apd_load::{LoadCause, LoadText, Loaded, Note, load, query_warnings};
use apd_rows::{Builder, MOST_ROW_NAMES, Scene, Trial};
use apd_term::Atoms;
use std::alloc::Global;
use std::boxed::Box;

/// What a text makes, from the names of the scene.
fn loaded(alloc: Global, scene: &mut Scene, text: &[u8]) -> Result<Loaded, LoadText> {
    if text.len() > MAX_FILE || scene.names.count() > MOST_ROW_NAMES {
        return Err(LoadText::Memory);
    }
    load(alloc, text, &mut scene.names)
}

/// Adds the cause of a refusal.
fn put_cause(given: &mut Builder, scene: &Scene, cause: LoadCause) {
    match cause {
        LoadCause::Body(fault) => put_fault(given, scene, fault),
        cause => given.put_debug(&cause),
    }
}

/// Adds why a text is refused.
fn put_refusal(given: &mut Builder, scene: &Scene, fault: LoadText) {
    let alloc = given.alloc;
    match fault {
        LoadText::Memory => given.put("out of memory"),
        LoadText::Refused { line, cause } => {
            given.put_made(format!(in alloc; "line {line}: "));
            put_cause(given, scene, cause);
        }
    }
}

/// Adds the lines and indicators of notes, behind what they are.
fn put_notes(given: &mut Builder, scene: &Scene, what: &str, notes: &[Note]) {
    let alloc = given.alloc;
    for Note { line, pred } in notes {
        given.put_made(format!(in alloc; "; {what} {line} "));
        given.put_indicator(scene, *pred);
    }
}

/// Adds how many clauses a text has, and its notes.
fn put_loaded(given: &mut Builder, scene: &Scene, loaded: &Loaded) {
    let alloc = given.alloc;
    given.put_made(format!(in alloc; "{} clauses", loaded.program.count()));
    put_notes(given, scene, "passed", loaded.passed.as_slice());
    put_notes(given, scene, "warned", loaded.warnings.as_slice());
}

/// Adds how many clauses a text has, and its notes; or why it is refused. The plain program makes the same of it.
fn put_load_of(given: &mut Builder, scene: &mut Scene, text: &[u8]) -> Option<()> {
    let found = loaded(given.alloc, scene, text);
    let alike = is_alike(given.alloc, scene, text, &found).ok();
    if alike == Some(false) {
        given.put("another load than the plain program's: ");
    }
    match &found {
        Ok(loaded) => put_loaded(given, scene, loaded),
        Err(fault) => put_refusal(given, scene, *fault),
    }
    drop(found);
    alike.map(|_| ())
}

/// Gives what the row's text is loaded as.
pub fn put_load(trial: &mut Trial) -> Option<()> {
    let Trial {
        scene,
        row,
        given,
        ..
    } = trial;
    put_load_of(given, scene, row.bytes(0))
}

/// Gives what a long text is loaded as.
pub fn put_long_load(trial: &mut Trial) -> Option<()> {
    let mut text = Builder::new(trial.alloc);
    trial.row.put_repeated(0, &mut text);
    let put = put_load_of(&mut trial.given, &mut trial.scene, text.bytes());
    // Dropped by calls, here and below: else each part is a step to check.
    drop(text);
    put
}

/// What the row's first field is loaded as.
fn loaded_of_row(trial: &mut Trial) -> Option<Box<Loaded>> {
    let loaded = loaded(trial.alloc, &mut trial.scene, trial.row.bytes(0)).ok()?;
    Box::new(trial.alloc, loaded).ok()
}

/// The goals of the row's second field.
fn goals_of_row(trial: &mut Trial) -> Option<Atoms> {
    let asked = trial.term(1)?;
    let goals = goals_of(trial.alloc, &asked);
    drop(asked);
    goals.ok()
}

/// Gives what there is to warn of the goals of the row.
fn put_warnings(trial: &mut Trial, program: &Program) -> Option<()> {
    let goals = goals_of_row(trial)?;
    let notes = query_warnings(trial.alloc, program, goals.as_slice());
    drop(goals);
    let notes = notes.ok()?;
    put_notes(&mut trial.given, &trial.scene, "warned", notes.as_slice());
    drop(notes);
    Some(())
}

/// Gives what there is to warn of the goals of a query over a program.
pub fn put_warned(trial: &mut Trial) -> Option<()> {
    let loaded = loaded_of_row(trial)?;
    let put = put_warnings(trial, &loaded.program);
    drop(loaded);
    put
}

/// Gives the line, the head and the goals of each clause by number, and the numbers of those of an atom's predicate.
fn put_clauses(trial: &mut Trial, program: &Program) -> Option<()> {
    let pred = trial.pred(1)?;
    for number in 0..program.count() {
        let clause = program.clause(number + 1);
        trial.given.put("line ");
        trial.given.put_shown(&clause.line);
        trial.given.put(": ");
        trial.put_tuple(&clause.tuple);
        trial.given.put("\n");
    }
    trial.given.put_debug(&program.clauses_of(pred));
    Some(())
}

/// Gives the clauses of the row's program, and the numbers of those of an atom's predicate.
pub fn put_program(trial: &mut Trial) -> Option<()> {
    let loaded = loaded_of_row(trial)?;
    let put = put_clauses(trial, &loaded.program);
    drop(loaded);
    put
}
