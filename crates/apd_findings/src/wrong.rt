//! Whether a clause's instance is wrong by the replies.

ghost use Rattle.std.specs.Prelude.{◌≡◌, ◌↔◌, ◌<◌, IsTrue, IfOk, length};
ghost use Rattle.std.specs.List.{AllByRecursion};
ghost use Rattle.apd_clauses.specs.Clauses.{tuples_of};
ghost use Rattle.apd_record.specs.Sound.{clause_of};
ghost use Rattle.apd_answers.specs.Findings.{IsTrueWhere, IsWrongByReplies};
ghost use Rattle.apd_answers.specs.Trust.{IsGranted};
ghost use Rattle.apd_findings.specs.Deciding.{as_term, is_instance_of, is_tuple_instance};

use crate::always::stands;
use crate::granting::is_granted;
use crate::parted::Parted;
use apd_answers::is_instance;
use apd_arith::Builtin;
use apd_clauses::Program;
use apd_record::Record;
use apd_term::standard::NIL;
use apd_term::{Atoms, Flat, Tuple};
use std::alloc::{AllocError, Global};

/// The tuple as one term.
fn as_term(alloc: Global, tuple: &Tuple) -> Result<Flat, AllocError>
    requires { length tuple.now.body < 255 }
    ensures { IfOk result (λ t. t ≡ as_term tuple.now) }
{
    let mut parts = Atoms::new(alloc);
    parts.push(tuple.head.copy(alloc)?)?;
    'atoms: for atom in tuple.body.as_slice() {
        parts.push(atom.copy(alloc)?)?;
    }
    Flat::compound(alloc, NIL, &parts)
}

/// Whether one substitution makes the general tuple into the special one.
fn is_tuple_instance(alloc: Global, special: &Tuple, general: &Tuple) -> Result<bool, AllocError>
    requires { length general.now.body < 255 }
    ensures { IfOk result (λ b. b ≡ is_tuple_instance special.now general.now) }
{
    if special.body.len() != general.body.len() {
        return Ok(false);
    }
    let special = as_term(alloc, special)?;
    let general = as_term(alloc, general)?;
    is_instance(alloc, &special, &general)
}

/// Whether the tuple is an instance of the clause of this number.
pub fn is_instance_of(
    alloc: Global,
    program: &Program,
    clause: u32,
    tuple: &Tuple,
) -> Result<bool, AllocError>
    ensures { IfOk result (λ b. b ≡ is_instance_of tuple.now
        (clause_of (tuples_of program.now) clause)) }
{
    if clause == 0 || program.count() < clause {
        return Ok(false);
    }
    let rule = &program.clause(clause).tuple;
    is_tuple_instance(alloc, tuple, rule)
}

/// Whether the atom is granted, or it is one of a built-in goal and always true.
fn is_true(
    alloc: Global,
    record: &Record,
    answers: &Parted,
    atom: &Flat,
) -> Result<bool, AllocError>
    ensures { IfOk result (λ b. IsTrue b ↔ IsTrueWhere
        (IsGranted record.now answers.now) atom.now) }
{
    match Builtin::of_atom(atom) {
        Some(_) => stands(alloc, atom),
        None => is_granted(alloc, record, answers, atom),
    }
}

/// Whether that is so of each of these.
fn are_true(
    alloc: Global,
    record: &Record,
    answers: &Parted,
    atoms: &[Flat],
) -> Result<bool, AllocError>
    ensures { IfOk result (λ b. IsTrue b ↔
        AllByRecursion (IsTrueWhere (IsGranted record.now answers.now)) atoms.now) }
{
    'atoms: for atom in atoms {
        if !is_true(alloc, record, answers, atom)? {
            return Ok(false);
        }
    }
    Ok(true)
}

/// Whether the clause's instance is wrong by the replies, for a program and the record of a run.
pub fn is_wrong(
    alloc: Global,
    program: &Program,
    record: &Record,
    answers: &Parted,
    clause: u32,
    tuple: &Tuple,
) -> Result<bool, AllocError>
    ensures { IfOk result (λ b. IsTrue b ↔
        IsWrongByReplies (tuples_of program.now) record.now answers.now clause tuple.now) }
{
    if !is_instance_of(alloc, program, clause, tuple)? {
        return Ok(false);
    }
    if !are_true(alloc, record, answers, tuple.body.as_slice())? {
        return Ok(false);
    }
    answers.says_no(alloc, &tuple.head)
}
