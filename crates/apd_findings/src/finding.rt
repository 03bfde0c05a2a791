//! Whether a finding follows from the replies.

ghost use Rattle.std.specs.Prelude.{◌≡◌, ◌↔◌, IsTrue, IfOk};
ghost use Rattle.apd_clauses.specs.Clauses.{tuples_of};
ghost use Rattle.apd_answers.specs.Findings.{IsByReplies};

use crate::calling::{NamedCall, is_violation};
use crate::candidates::are_candidates_by_replies;
use crate::closing::is_uncovered;
use crate::parted::Parted;
use crate::wrong::is_wrong;
use apd_answers::Finding;
use apd_clauses::Program;
use apd_record::Record;
use apd_term::Flat;
use std::alloc::{AllocError, Global};

/// The atom that the store is to deny if the finding follows from the replies.
fn denied_in(finding: &Finding) -> Option<&Flat> {
    match finding {
        Finding::WrongInstance { tuple, .. } => Some(&tuple.head),
        Finding::Candidates(instances) => match instances.get(0) {
            Some(instance) => Some(&instance.tuple.head),
            None => None,
        },
        _ => None,
    }
}

/// Computes ahead what tells whether the finding follows from the replies, and keeps it. The store stays as it is.
pub fn prepare(answers: &mut Parted, finding: &Finding) -> Result<(), AllocError>
    ensures { answers.new ≡ answers.old }
{
    match denied_in(finding) {
        Some(atom) => answers.prepare_atom(atom),
        None => Ok(()),
    }
}

/// Whether the finding follows from the replies, for a program and the record of a run.
pub fn is_by_replies(
    alloc: Global,
    program: &Program,
    record: &Record,
    answers: &Parted,
    finding: &Finding,
) -> Result<bool, AllocError>
    ensures { IfOk result (λ b. IsTrue b ↔
        IsByReplies (tuples_of program.now) record.now answers.now finding.now) }
{
    match finding {
        Finding::WrongInstance { clause, tuple } => {
            is_wrong(alloc, program, record, answers, *clause, tuple)
        }
        Finding::Uncovered { goal } => is_uncovered(alloc, program, answers, goal),
        Finding::Violation {
            clause,
            goal,
            caller,
            callee,
            caller_atom,
            callee_atom,
        } => {
            let called = NamedCall {
                clause: *clause,
                goal: *goal,
                caller: *caller,
                callee: *callee,
                caller_atom,
                callee_atom,
            };
            is_violation(alloc, record, answers, &called)
        }
        Finding::Candidates(instances) => {
            are_candidates_by_replies(alloc, program, record, answers, instances.as_slice())
        }
    }
}
