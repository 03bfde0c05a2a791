//! What the calls give that tables about terms and programs are for: names, terms and lists of them, substitutions, unifiers,
//! pasts, values and truths; clauses, queries and loads.
#![tactic(auto)]

mod alike_rows;
mod clause_rows;
mod load_rows;
mod past_rows;
mod query_rows;
mod term_rows;
mod value_rows;

use apd_rows::{Tables, Trial};

/// Adds what a call gives whose table is about pasts, values and truths.
fn give_of_values(name: &str, trial: &mut Trial) -> Option<()> {
    match name {
        "pasts" => past_rows::put_past(trial),
        "long_pasts" => past_rows::put_long_past(trial),
        "values" => value_rows::put_value(trial),
        "deep_values" => value_rows::put_deep_value(trial),
        "truths" => value_rows::put_truth(trial),
        _ => None,
    }
}

/// Adds what a call gives whose table is about terms.
fn give_of_terms(name: &str, trial: &mut Trial) -> Option<()> {
    match name {
        "names" => term_rows::put_name(trial),
        "terms" => term_rows::put_parts(trial),
        "canonical" => term_rows::put_canonical(trial),
        "shifted" => term_rows::put_shifted(trial),
        "matching" => term_rows::put_matched(trial),
        "substitutions" => term_rows::put_substituted(trial),
        "tuples" => term_rows::put_tuple(trial),
        "lists" => term_rows::put_lists(trial),
        "unifiers" => term_rows::put_unified(trial),
        _ => give_of_values(name, trial),
    }
}

/// Adds what a call gives whose table is about loads.
fn give_loaded(name: &str, trial: &mut Trial) -> Option<()> {
    match name {
        "loads" => load_rows::put_load(trial),
        "long_loads" => load_rows::put_long_load(trial),
        "query_warnings" => load_rows::put_warned(trial),
        "programs" => load_rows::put_program(trial),
        _ => give_of_terms(name, trial),
    }
}

/// The tables of terms and programs.
#[derive(Clone, Copy)]
pub struct ProgramTables;

impl Tables for ProgramTables {
    fn give(&self, name: &str, trial: &mut Trial) -> Option<()> {
        match name {
            "kinds" => clause_rows::put_kinds(trial),
            "bodies" => clause_rows::put_clause(trial),
            "goals" => clause_rows::put_goals(trial),
            "long_bodies" => clause_rows::put_long_body(trial),
            "runnable" => clause_rows::put_runnable(trial),
            "full_programs" => clause_rows::put_filled(trial),
            "queries" => query_rows::put_query(trial),
            "query_variables" => query_rows::put_numbered(trial),
            _ => give_loaded(name, trial),
        }
    }
}
