//! What a session keeps from line to line.

use apd_answers::Answers;
use apd_causes::{Query, RunEnd};
use apd_clauses::Program;
use apd_divide::Strategy;
use apd_ports::Filter;
use apd_record::Record;
use apd_reference::Referee;

/// The last run of a session.
#[derive(Drop)]
pub struct LastRun {
    /// What was asked.
    pub query: Query,
    /// The boxes and points of its search, recorded as it was made.
    pub history: Record,
    /// How it ended.
    pub end: RunEnd,
}

/// What a session keeps from line to line.
#[derive(Drop)]
pub struct State {
    /// The program that was loaded.
    pub program: Program,
    /// The most ports that a run shows, from 1 to 1,000,000.
    pub budget: u32,
    /// The most answers that a run shows, from 1 to 1,000,000.
    pub answers: u32,
    /// Which ports are printed.
    pub filter: Filter,
    /// How it is chosen which suspect is asked about.
    pub strategy: Strategy,
    /// The run of the last query that was run.
    pub last: Option<LastRun>,
    /// The symptoms and the replies of all diagnoses.
    pub replies: Answers,
    /// Who is asked before a line is read.
    pub referee: Referee,
    /// How many questions were asked.
    pub asked: u64,
}
