//! What the calls give that tables about runs are for: what runs show, how they end, and what stands in their records; the plain
//! programs that compute definitions; and what a session says and hears: lines of runs, entries of the log, words of the
//! command line, filters, lines of the input.
#![tactic(auto)]

mod entry_rows;
mod filter_rows;
mod line_rows;
mod plain_rows;
mod programs;
mod record_rows;
mod run_rows;
mod talk_rows;

use apd_rows::{Tables, Trial};

/// Adds what a call gives whose table is about what is said and heard.
fn give_said(name: &str, trial: &mut Trial) -> Option<()> {
    match name {
        "heads" => line_rows::put_head(trial),
        "ports" => line_rows::put_port(trial),
        "answers" => line_rows::put_answer(trial),
        "end_lines" => line_rows::put_end(trial),
        "entries" => entry_rows::put_entry(trial),
        "finished" => entry_rows::put_finished(trial),
        "words" => talk_rows::put_words(trial),
        "filters" => filter_rows::put_admitted(trial),
        "filters_set" => filter_rows::put_set(trial),
        "console" => talk_rows::put_heard(trial),
        "printing" => talk_rows::put_printed(trial),
        _ => None,
    }
}

/// The tables of runs.
#[derive(Clone, Copy)]
pub struct RunTables;

impl Tables for RunTables {
    fn give(&self, name: &str, trial: &mut Trial) -> Option<()> {
        match name {
            "runs" => run_rows::put_run(trial),
            "ends" => run_rows::put_end(trial),
            "records" => record_rows::put_record(trial),
            "plain" => plain_rows::put_plain(trial),
            "plain_runs" => plain_rows::put_plain_run(trial),
            _ => give_said(name, trial),
        }
    }
}
