//! Which clause of a program an instance is one of.

ghost use Rattle.std.specs.Prelude.{◌≡◌, [], ◌∷◌, ◌≤◌, IfOk, IfSome, MatchBool, OnOk, true, length};
ghost use Rattle.apd_by_hand.specs.Newest.{IsInstanceOf, as_term};
ghost use Rattle.apd_clauses.specs.Clauses.{tuples_of};
ghost use Rattle.apd_term.specs.Tuple.{IsTupleInstance};

use apd_clauses::Program;
use apd_term::{Atoms, Flat, NameId, Tuple, is_instance};
use std::alloc::{AllocError, Global};

/// Any name, for the tuple as one term.
const TUPLE: NameId = NameId(0);

/// Puts copies of the head and of the atoms of the body where there are no parts yet.
fn put_parts(alloc: Global, parts: &mut Atoms, tuple: &Tuple) -> Result<(), AllocError>
    requires { parts.old ≡ [] }
    ensures { OnOk result (parts.new ≡ tuple.now.head ∷ tuple.now.body) }
{
    let head = tuple.head.copy(alloc)?;
    parts.push(head)?;
    'atoms: for atom in tuple.body.as_slice() {
        let copy = atom.copy(alloc)?;
        parts.push(copy)?;
    }
    Ok(())
}

/// The head and the body as one term, by parts that are put where there are none yet.
fn term_of(alloc: Global, parts: &mut Atoms, tuple: &Tuple) -> Option<Flat>
    requires { parts.old ≡ [] }
    ensures { IfSome result (λ t. t ≡ as_term tuple.now) }
{
    put_parts(alloc, parts, tuple).ok()?;
    if parts.len() > 255 {
        return None;
    }
    Flat::compound(alloc, TUPLE, parts).ok()
}

/// The head and the body as one term; None where there are too many atoms, or for want of memory.
fn as_term(alloc: Global, tuple: &Tuple) -> Option<Flat>
    ensures { IfSome result (λ t. t ≡ as_term tuple.now) }
{
    let mut parts = Atoms::new(alloc);
    let term = term_of(alloc, &mut parts, tuple);
    // Dropped by a call, here and below: else each of its parts is a step to check.
    drop(parts);
    term
}

/// Whether the one tuple is an instance of the other.
fn is_tuple_instance(alloc: Global, special: &Tuple, general: &Tuple) -> Option<bool>
    ensures { IfSome result (λ b. b ≡ true → IsTupleInstance special.now general.now) }
{
    let special = as_term(alloc, special)?;
    let general = as_term(alloc, general)?;
    let is_instance = is_instance(alloc, &special, &general);
    drop(general);
    drop(special);
    match is_instance {
        Ok(is) => Some(is),
        Err(_) => None,
    }
}

/// The number of the first clause that the tuple is an instance of; None where there is none, or for want of memory.
pub fn number_of(alloc: Global, program: &Program, tuple: &Tuple) -> Option<u32>
    ensures { IfSome result (IsInstanceOf (tuples_of program.now) tuple.now) }
{
    'clauses: for number in 1..=program.count() {
        let clause = program.clause(number);
        let fits = is_tuple_instance(alloc, tuple, &clause.tuple)?;
        if fits {
            return Some(number);
        }
    }
    None
}
