//! The lines of a run.

use apd_base::{Text, VarNames};
use apd_causes::{Query, Ran, RunEnd, RunError};
use apd_clauses::goals_of;
use apd_ports::{Event, Port};
use apd_rows::{Scene, Trial, texts_of};
use apd_term::{Flat, Tuple};
use apd_text::{PortLine, answer_line, end_line, head_line};
use std::alloc::{AllocError, Global};

/// The box, its caller and its depth in each line of a port.
const PLACES: (u32, u32, u32) = (12, 5, 3);

/// The number in each line of an answer.
const ANSWER: u64 = 40;

/// A query of the goals that a term has, which shows no variable.
pub fn asked(alloc: Global, goals: &Flat) -> Result<Query, AllocError> {
    let head = Flat::integer(alloc, 0)?;
    match goals_of(alloc, goals) {
        Ok(body) => Ok(Query {
            tuple: Tuple { head, body },
            vars: VarNames::new(alloc),
        }),
        Err(fault) => {
            drop(head);
            Err(fault)
        }
    }
}

/// Gives the first line of a run with the goals on the right side; the left side gave the variables their numbers.
pub fn put_head(trial: &mut Trial) -> Option<()> {
    let sides = trial.sides(0)?;
    let query = asked(trial.alloc, &sides.right);
    // Dropped by calls, here and below: else each part is a step to check.
    drop(sides);
    let query = query.ok()?;
    let Scene { names, ops } = &*trial.scene;
    let line = head_line(trial.alloc, names, ops, &query);
    drop(query);
    trial.given.put_made_text(line);
    Some(())
}

/// The port of this name.
pub fn port_named(name: &str) -> Port {
    match name {
        "Call" => Port::Call,
        "Exit" => Port::Exit,
        "Redo" => Port::Redo,
        _ => Port::Fail,
    }
}

/// The line of a port.
fn line_of(alloc: Global, scene: &Scene, event: &Event) -> Result<Text, AllocError> {
    let Scene { names, ops } = scene;
    let mut line = PortLine::new(alloc);
    line.write(names, ops, event)?;
    Text::copy_of(alloc, line.bytes())
}

/// Gives the line of a port.
pub fn put_port(trial: &mut Trial) -> Option<()> {
    let atom = trial.term(1)?;
    let (box_no, caller, depth) = PLACES;
    let event = Event {
        port: port_named(trial.row.text(0)),
        box_no,
        caller,
        depth,
        atom,
    };
    let line = line_of(trial.alloc, &*trial.scene, &event);
    drop(event);
    trial.given.put_made_text(line);
    Some(())
}

/// Gives the line of an answer: the names of the variables, and the list of their values.
pub fn put_answer(trial: &mut Trial) -> Option<()> {
    let vars = texts_of(trial.alloc, trial.row.text(0)).ok()?;
    match trial.term(1) {
        Some(values) => {
            let Scene { names, ops } = &*trial.scene;
            let line = answer_line(trial.alloc, names, ops, &vars, ANSWER, &values);
            drop(values);
            drop(vars);
            trial.given.put_made_text(line);
            Some(())
        }
        None => {
            drop(vars);
            None
        }
    }
}

fn error_named(name: &str) -> Option<RunError> {
    Some(match name {
        "Unbound" => RunError::Unbound,
        "NotEvaluable" => RunError::NotEvaluable,
        "Overflow" => RunError::Overflow,
        "ZeroDivisor" => RunError::ZeroDivisor,
        "Size" => RunError::Size,
        _ => return None,
    })
}

fn end_named(name: &str, box_no: u32) -> Option<RunEnd> {
    match name {
        "Exhausted" => Some(RunEnd::Exhausted),
        "Budget" => Some(RunEnd::Budget),
        "AnswerLimit" => Some(RunEnd::AnswerLimit),
        name => Some(RunEnd::Error(error_named(name)?, box_no)),
    }
}

/// Gives the last line of a run: its end, the box of an error, its ports and its answers.
pub fn put_end(trial: &mut Trial) -> Option<()> {
    let row = &trial.row;
    let ran = Ran {
        end: end_named(row.text(0), row.number(1))?,
        ports: row.number(2),
        answers: row.number(3),
    };
    trial.given.put_made_text(end_line(trial.alloc, ran));
    Some(())
}
