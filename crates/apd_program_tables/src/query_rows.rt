//! What is made of queries.

use crate::clause_rows::put_fault;
use apd_causes::Query;
use apd_clauses::{Read, is_query, query_of};
use apd_rows::{BETWEEN, Trial, texts_of};
use apd_term::standard::QUERY;
use apd_term::{Atoms, Flat, NameId};
use std::alloc::{AllocError, Global};

/// The most arguments of a compound.
const MOST_ARGUMENTS: usize = 255;

/// Gives the names of a query's variables that are shown, its head and its goals.
fn put_shown(trial: &mut Trial, query: &Query) {
    for name in query.vars.as_slice() {
        trial.given.put_bytes(name.bytes());
        trial.given.put(" ");
    }
    trial.put_tuple(&query.tuple);
}

/// Gives the query that a clause is, or its first fault.
fn put_read(trial: &mut Trial, read: &Read) {
    if !is_query(&read.term) {
        trial.given.put("no query");
        return;
    }
    match query_of(trial.alloc, read) {
        Ok(query) => {
            put_shown(trial, &query);
            // Dropped by calls, here and below: else each part is a step to check.
            drop(query);
        }
        Err(fault) => put_fault(&mut trial.given, &trial.scene, fault),
    }
}

/// Gives the query that a text is.
pub fn put_query(trial: &mut Trial) -> Option<()> {
    let read = trial.read(0)?;
    put_read(trial, &read);
    drop(read);
    Some(())
}

/// Adds the variables of these numbers.
fn put_variables(alloc: Global, variables: &mut Atoms, numbers: &str) -> Result<(), AllocError> {
    for number in numbers.split(BETWEEN) {
        let variable = Flat::variable(alloc, number.parse::<u64>().unwrap_or(0))?;
        variables.push(variable)?;
    }
    Ok(())
}

fn atom_of(alloc: Global, name: NameId, arguments: &Atoms) -> Option<Flat> {
    if arguments.len() > MOST_ARGUMENTS {
        return None;
    }
    Flat::compound(alloc, name, arguments).ok()
}

/// A query of one goal.
fn asked(alloc: Global, goal: Flat) -> Option<Flat> {
    let mut goals = Atoms::new(alloc);
    let query = match goals.push(goal) {
        Ok(()) => atom_of(alloc, QUERY, &goals),
        Err(_) => None,
    };
    drop(goals);
    query
}

/// The query with a goal of variables of these numbers.
fn query_over(alloc: Global, name: NameId, numbers: &str) -> Option<Flat> {
    let mut variables = Atoms::new(alloc);
    let goal = match put_variables(alloc, &mut variables, numbers) {
        Ok(()) => atom_of(alloc, name, &variables),
        Err(_) => None,
    };
    drop(variables);
    asked(alloc, goal?)
}

/// Gives the query with a goal of variables of the row's numbers; those from 1 on have the row's names.
pub fn put_numbered(trial: &mut Trial) -> Option<()> {
    let pred = trial.pred(0)?;
    let term = query_over(trial.alloc, pred.name, trial.row.text(1))?;
    match texts_of(trial.alloc, trial.row.text(2)) {
        Ok(vars) => {
            let read = Read {
                term,
                vars,
                start: 0,
                next: 0,
            };
            put_read(trial, &read);
            drop(read);
            Some(())
        }
        Err(_) => {
            drop(term);
            None
        }
    }
}
