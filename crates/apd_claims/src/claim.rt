//! What a line of a log says.

use apd_answers::{Asked, Finding, Question, Reply};
use apd_causes::{Query, Ran};

/// What a line says.
#[derive(Drop)]
pub enum Claim {
    /// This query is run.
    Runs(Query),
    /// Its run ended so.
    Ends(Ran),
    /// A symptom: this reply to this question is told.
    Tells(Question, Reply),
    /// This is asked.
    Asks(Asked),
    /// What was asked is replied to so.
    Replies(Reply),
    /// This is found, in a clause of this line of the program, where a line is printed.
    Finds(Finding, u32),
    /// Each of so many calls is below the one before.
    Descends(u32),
    /// It says nothing of these.
    Nothing,
    /// It begins as one of them, and isn't its text.
    Garbled,
}
