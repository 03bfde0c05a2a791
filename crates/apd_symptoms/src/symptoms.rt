//! The exit that a command names, and the line of a finding.

ghost use Rattle.std.specs.Prelude.{◌≡◌, ◌<◌, ◌≤◌, ℕ, pos, length, IfErr, IfOk, MatchOption, MatchResult, Ok, Err};
ghost use Rattle.apd_divide.specs.Exits.{IsUserExit};
ghost use Rattle.apd_symptoms.specs.Symptoms.{IsNoBox, exit_of, line_found, line_of_clause, line_of_first, numbered};
ghost use Rattle.apd_clauses.specs.Clauses.{clause_at};
ghost use Rattle.apd_text.specs.Named.{RefusalIsNamed};

use apd_answers::Finding;
use apd_clauses::Program;
use apd_ports::PointId;
use apd_record::Record;
use apd_term::Instance;
use apd_text::Refusal;

/// The number of a box of the record, where it is one.
pub(crate) fn box_number(history: &Record, number: i64) -> Option<u32>
    ensures { MatchOption result (IsNoBox history.now number)
        (λ b. (number ≡ pos b) × (0 < b) × (b ≤ length history.now.boxes)) }
{
    if number < 1 || number > i64::from(history.boxes()) {
        return None;
    }
    Some(number as u32)
}

/// The exit with this number, where there is one.
fn exit_numbered(exits: &[PointId], number: i64) -> Option<PointId>
    ensures { result ≡ numbered exits.now number }
{
    if number < 1 {
        return None;
    }
    exits.get((number - 1) as usize).copied()
}

/// The exit with this number of the box with this number, which is one of the program's own; both are counted from 1.
///
/// # Errors
///
/// [`Refusal::NoSuchBox`] where there is no box of this number, [`Refusal::NoSuchExit`] where the box has no exit of this
/// number, and [`Refusal::NotUserBox`] where the box is one of a built-in goal; looked for in this order.
pub fn exit_of(history: &Record, box_no: i64, exit: i64) -> Result<PointId, Refusal>
    ensures exit { MatchResult result (λ e. exit_of history.now box_no exit ≡ Ok e.0)
        (λ r. exit_of history.now box_no exit ≡ Err r) }
    ensures user { IfOk result (λ e. IsUserExit history.now e.0) }
    ensures named { (n : ℕ) → IfErr result (RefusalIsNamed n) }
{
    let Some(b) = box_number(history, box_no) else {
        return Err(Refusal::NoSuchBox(box_no));
    };
    let Some(found) = exit_numbered(history.exits(b), exit) else {
        return Err(Refusal::NoSuchExit(exit));
    };
    if history.is_user(b) {
        return Ok(found);
    }
    Err(Refusal::NotUserBox(b))
}

/// The line of a clause, 0 where there is none with this number.
fn line_of_clause(program: &Program, number: u32) -> u32
    ensures { result ≡ line_of_clause (clause_at program.now number) }
{
    if number < 1 || number > program.count() {
        return 0;
    }
    program.clause(number).line
}

/// The line of the first candidate's clause, counted from 1; 0 where there is none.
fn line_of_first(program: &Program, candidates: &[Instance]) -> u32
    ensures { result ≡ line_of_first program.now candidates.now }
{
    match candidates {
        [first, ..] => line_of_clause(program, first.clause),
        [] => 0,
    }
}

/// The line of the clause that was found, of candidates that of the first, counted from 1; 0 where what was found has no
/// clause.
pub fn line_found(program: &Program, finding: &Finding) -> u32
    ensures { result ≡ line_found program.now finding.now }
{
    match finding {
        Finding::WrongInstance { clause, .. } | Finding::Violation { clause, .. } => {
            line_of_clause(program, *clause)
        }
        Finding::Uncovered { .. } => 0,
        Finding::Candidates(candidates) => line_of_first(program, candidates.as_slice()),
    }
}
