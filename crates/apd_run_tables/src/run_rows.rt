//! What runs show, and how they end.

use crate::programs::loaded_of;
use apd_base::MOST_SHOWN;
use apd_causes::{Query, Ran};
use apd_clauses::{is_query, may_run, query_of};
use apd_engine::run;
use apd_load::Loaded;
use apd_ports::{Event, Hook, HookFault, Shown};
use apd_record::Record;
use apd_rows::{Builder, Scene, Trial};
use apd_term::Flat;
use std::alloc::{AllocError, Global};
use std::boxed::Box;

/// A hook that keeps what it is shown, where that is wanted.
#[derive(Drop)]
pub struct Keeper {
    alloc: Global,
    keeps: bool,
    shown: Vec<Shown>,
}

fn copy_of(alloc: Global, event: &Event) -> Result<Event, AllocError> {
    let atom = event.atom.copy(alloc)?;
    Ok(Event {
        port: event.port,
        box_no: event.box_no,
        caller: event.caller,
        depth: event.depth,
        atom,
    })
}

impl Keeper {
    /// A hook that keeps what it is shown, or nothing.
    pub fn new(alloc: Global, keeps: bool) -> Keeper {
        Keeper {
            alloc,
            keeps,
            shown: Vec::new(alloc),
        }
    }

    fn keep_event(&mut self, event: &Event) -> Result<(), AllocError> {
        let copy = copy_of(self.alloc, event)?;
        self.shown.push(Shown::Port(copy))?;
        Ok(())
    }

    fn keep_answer(&mut self, values: &Flat) -> Result<(), AllocError> {
        let copy = values.copy(self.alloc)?;
        self.shown.push(Shown::Answer(copy))?;
        Ok(())
    }
}

impl Hook for Keeper {
    ghost faults = { λ _. 0 };

    ghost step = { λ _ _ _ _. Unit {0} };

    fn ignores_ports(&self) -> bool {
        !self.keeps
    }

    fn event(&mut self, event: &Event) -> Result<(), HookFault> {
        if !self.keeps || self.keep_event(event).is_ok() {
            return Ok(());
        }
        Err(HookFault::Memory)
    }

    fn answer(&mut self, values: &Flat) -> Result<(), HookFault> {
        if !self.keeps || self.keep_answer(values).is_ok() {
            return Ok(());
        }
        Err(HookFault::Memory)
    }
}

/// A program, a query, and the limits of a run.
#[derive(Drop)]
pub struct Case {
    /// The program, and what else was in its text.
    pub loaded: Box<Loaded>,
    pub query: Query,
    pub budget: u32,
    pub answers: u32,
}

/// The query of a row.
fn query_of_row(trial: &mut Trial) -> Option<Query> {
    let read = trial.read(1)?;
    if !is_query(&read.term) {
        // Dropped by calls, here and below: else each part is a step to check.
        drop(read);
        return None;
    }
    let query = query_of(trial.alloc, &read);
    drop(read);
    query.ok()
}

/// The program, the query and the limits of a row.
pub fn case_of(trial: &mut Trial) -> Option<Box<Case>> {
    let loaded = loaded_of(trial)?;
    match query_of_row(trial) {
        Some(query) => {
            let case = Case {
                loaded,
                query,
                budget: trial.row.number(2),
                answers: trial.row.number(3),
            };
            Box::new(trial.alloc, case).ok()
        }
        None => {
            drop(loaded);
            None
        }
    }
}

/// What is left of a run: what it showed, where that is kept, and its record.
#[derive(Drop)]
pub struct Left {
    pub keeper: Keeper,
    pub history: Record,
}

impl Left {
    /// What is left before a run.
    pub fn new(alloc: Global, keeps: bool) -> Option<Box<Left>> {
        let left = Left {
            keeper: Keeper::new(alloc, keeps),
            history: Record::new(alloc),
        };
        Box::new(alloc, left).ok()
    }
}

/// Adds how a run ended, and how much it showed.
pub fn put_ran(given: &mut Builder, ran: Ran) {
    let alloc = given.alloc;
    let Ran {
        end,
        ports,
        answers,
    } = ran;
    given.put_made(format!(in alloc; "{end:?}, {ports} ports, {answers} answers"));
}

/// Runs the query of a case.
fn ran(alloc: Global, case: &Case, left: &mut Left) -> Option<Ran> {
    let (budget, answers) = (case.budget, case.answers);
    if budget == 0 || budget > MOST_SHOWN || answers == 0 || answers > MOST_SHOWN {
        return None;
    }
    if !may_run(&case.query.tuple) {
        return None;
    }
    run(
        alloc,
        &case.loaded.program,
        &case.query,
        budget,
        answers,
        &mut left.keeper,
        &mut left.history,
    )
    .ok()
}

/// Adds a port with its box, caller, depth and atom.
fn put_event(given: &mut Builder, scene: &Scene, event: &Event) {
    let alloc = given.alloc;
    given.put_made(format!(in alloc; "{} {} {} ", event.box_no, event.caller, event.depth));
    given.put_debug(&event.port);
    given.put(" ");
    given.put_term(scene, &event.atom);
}

/// Adds a port or an answer, on a line.
pub fn put_item(given: &mut Builder, scene: &Scene, item: &Shown) {
    match item {
        Shown::Port(event) => put_event(given, scene, event),
        Shown::Answer(values) => {
            given.put("answer ");
            given.put_term(scene, values);
        }
    }
    given.put("\n");
}

/// Runs the query of the row.
pub fn ran_of_row(trial: &mut Trial, left: &mut Left) -> Option<Ran> {
    let case = case_of(trial)?;
    let ran = ran(trial.alloc, &case, left);
    drop(case);
    ran
}

/// Gives what is left of the row's run: what it shows, where that is kept, and its end.
fn put_left(trial: &mut Trial, left: &mut Left) -> Option<()> {
    let ran = ran_of_row(trial, left)?;
    for item in left.keeper.shown.as_slice() {
        put_item(&mut trial.given, &trial.scene, item);
    }
    put_ran(&mut trial.given, ran);
    Some(())
}

/// Gives what a run shows, where that is kept, and its end.
fn put_shown(trial: &mut Trial, keeps: bool) -> Option<()> {
    let mut left = Left::new(trial.alloc, keeps)?;
    let put = put_left(trial, &mut left);
    drop(left);
    put
}

/// Gives what a run shows, port by port, and its end.
pub fn put_run(trial: &mut Trial) -> Option<()> {
    put_shown(trial, true)
}

/// Gives the end of a run alone.
pub fn put_end(trial: &mut Trial) -> Option<()> {
    put_shown(trial, false)
}
