//! The diagnosis of the record of two clauses, with a reply that is known beforehand.

ghost use Rattle.std.specs.Prelude.{◌≡◌};
ghost use Rattle.apd_by_hand.specs.Made.{made};
ghost use Rattle.apd_divide.specs.Exits.{IsLabelled};

use crate::by_hand::{call_of_p, call_of_r, made, symptom};
use crate::listed::Listed;
use apd_answers::{AskEnd, Finding};
use apd_divide::Strategy;
use apd_ports::PointId;
use apd_record::Record;
use apd_term::Flat;
use apd_wrong::diagnose_wrong;
use std::alloc::Global;

/// What is found of the third point, the exit with this head, and how many of these replies weren't asked for.
fn found_of(
    alloc: Global,
    recorded: &Record,
    label: &Flat,
    replies: &[bool],
) -> Result<(Finding, usize), AskEnd>
    requires { IsLabelled recorded.now 3 label.now }
{
    let mut answers = symptom(alloc, label)?;
    let mut oracle = Listed::new(replies);
    let found = diagnose_wrong(
        alloc,
        recorded,
        PointId(3),
        label,
        Strategy::Divide,
        &mut answers,
        &mut oracle,
    );
    // Dropped by a call, here and below: else each part of the store is a step to check.
    drop(answers);
    match found {
        Ok(finding) => Ok((finding, oracle.left.len())),
        Err(end) => Err(end),
    }
}

/// What is found of the exit of r(X) in its record, and how many of these replies weren't asked for.
fn found_in(alloc: Global, recorded: &Record, replies: &[bool]) -> Result<(Finding, usize), AskEnd>
    requires { recorded.now ≡ made }
{
    let label = call_of_r(alloc)?;
    let found = found_of(alloc, recorded, &label, replies);
    drop(label);
    found
}

/// What is found of that exit in the record that is made by hand, and how many of these replies weren't asked for.
fn found(alloc: Global, replies: &[bool]) -> Result<(Finding, usize), AskEnd> {
    let recorded = made(alloc)?;
    let found = found_in(alloc, &recorded, replies);
    drop(recorded);
    found
}

/// Whether the finding is that a fact with this head is a wrong instance of the second clause.
fn is_fact(finding: &Finding, head: &Flat) -> bool {
    match finding {
        Finding::WrongInstance { clause, tuple } => {
            *clause == 2 && tuple.head.same(head) && tuple.body.len() == 0
        }
        Finding::Uncovered { .. } | Finding::Violation { .. } | Finding::Candidates(_) => false,
    }
}

/// Whether the finding is that the fact `p(_1)` is a wrong instance of the second clause.
fn is_the_fact(alloc: Global, finding: &Finding) -> Result<bool, AskEnd> {
    let head = call_of_p(alloc)?;
    let is_fact = is_fact(finding, &head);
    drop(head);
    Ok(is_fact)
}

/// Whether the reply no to the one question finds that the fact is wrong. None for want of memory, or where more is asked.
pub fn finds_the_fact(alloc: Global) -> Option<bool> {
    let (finding, left) = found(alloc, &[false]).ok()?;
    let is_right = is_the_fact(alloc, &finding);
    drop(finding);
    Some(is_right.ok()? && left == 0)
}
