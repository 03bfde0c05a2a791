//! Whether an atom is true by the replies, or was answered in the run and is one of a trusted predicate.

ghost use Rattle.std.specs.Prelude.{◌≡◌, ◌↔◌, IsTrue, IfOk};
ghost use Rattle.apd_record.specs.Full.{HasExit};
ghost use Rattle.apd_answers.specs.Trust.{IsAnswered, IsGranted, is_trusted};
ghost use Rattle.apd_findings.specs.Calling.{IsBox};
ghost use Rattle.apd_findings.specs.Granting.{IsAnsweredIn};

use crate::parted::Parted;
use apd_answers::is_instance;
use apd_record::Record;
use apd_term::Flat;
use std::alloc::{AllocError, Global};

/// Whether some exit of the box has the atom as an instance of its head.
fn has_exit(alloc: Global, record: &Record, box_no: u32, atom: &Flat) -> Result<bool, AllocError>
    requires { IsBox record.now box_no }
    ensures { IfOk result (λ b. IsTrue b ↔ HasExit record.now box_no atom.now) }
{
    'exits: for exit in record.exits(box_no) {
        let tuple = record.tuple(*exit)?;
        if is_instance(alloc, atom, &tuple.head)? {
            return Ok(true);
        }
    }
    Ok(false)
}

/// Whether the box is one of the program's own, and has such an exit.
fn is_answered_in(
    alloc: Global,
    record: &Record,
    box_no: u32,
    atom: &Flat,
) -> Result<bool, AllocError>
    requires { IsBox record.now box_no }
    ensures { IfOk result (λ b. IsTrue b ↔ IsAnsweredIn record.now atom.now box_no) }
{
    if !record.is_user(box_no) {
        return Ok(false);
    }
    has_exit(alloc, record, box_no, atom)
}

/// Whether some box is such a one.
fn is_answered(alloc: Global, record: &Record, atom: &Flat) -> Result<bool, AllocError>
    ensures { IfOk result (λ b. IsTrue b ↔ IsAnswered record.now atom.now) }
{
    'boxes: for i in 0..record.boxes() {
        if is_answered_in(alloc, record, i + 1, atom)? {
            return Ok(true);
        }
    }
    Ok(false)
}

/// Whether the predicate of the atom is trusted.
fn is_trusted(answers: &Parted, atom: &Flat) -> bool
    ensures { result ≡ is_trusted answers.now.trusted atom.now }
{
    match atom.pred() {
        Some(pred) => answers.all().trusts(pred),
        None => false,
    }
}

/// Whether the store says yes to the atom, or its predicate is trusted and the record has an exit for it.
pub fn is_granted(
    alloc: Global,
    record: &Record,
    answers: &Parted,
    atom: &Flat,
) -> Result<bool, AllocError>
    ensures { IfOk result (λ b. IsTrue b ↔ IsGranted record.now answers.now atom.now) }
{
    if answers.says_yes(alloc, atom)? {
        return Ok(true);
    }
    if !is_trusted(answers, atom) {
        return Ok(false);
    }
    is_answered(alloc, record, atom)
}
