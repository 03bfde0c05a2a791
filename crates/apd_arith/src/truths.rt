//! Whether a ground atom of a built-in goal is true.

ghost use Rattle.std.specs.Prelude.{◌≡◌, ◌≢◌, ◌↔◌, ◌∷◌, [], IfOk, IfSome, IsNone, IsTrue};
ghost use Rattle.apd_term.specs.Term.{IsGround, integer};
ghost use Rattle.apd_arith.specs.Builtins.{IsBuiltin};
ghost use Rattle.std.specs.List.{list_all};
ghost use Rattle.apd_arith.specs.Truth.{IsTrueAtom, Faults, IsFound, unless_fault};
ghost use Rattle.apd_arith.specs.Truths.{is_ground};

use crate::comparison::{Comparison, compare};
use crate::evaluation::eval;
use crate::fault::ArithFault;
use crate::goal::Builtin;
use apd_term::{Atoms, Flat, Sym};
use std::alloc::{AllocError, Global};

/// Whether no atom has a variable.
pub fn are_ground(atoms: &Atoms) -> bool
    ensures { result ≡ list_all is_ground atoms.now }
{
    'atoms: for atom in atoms.as_slice() {
        if !atom.is_ground() {
            return false;
        }
    }
    true
}

/// Whether a term is the integer.
fn is_integer(term: &Flat, value: i64) -> bool
    ensures { IsTrue result ↔ (term.now ≡ integer value) }
{
    term.symbols() == [Sym::Int(value)].as_slice()
}

/// Whether a term is the integer that an expression gives, or the expression's first fault.
fn is_value(alloc: Global, term: &Flat, expr: &Flat) -> Result<bool, ArithFault>
    ensures { result ≢ Err ArithFault.Memory →
        IsFound Builtin.Is (term.now ∷ expr.now ∷ []) result }
{
    let value = eval(alloc, expr)?;
    Ok(is_integer(term, value))
}

/// Whether a ground goal with two arguments is true, or its first fault.
fn truth_of_two(alloc: Global, goal: Builtin, left: &Flat, right: &Flat) -> Result<bool, ArithFault>
    ensures { result ≢ Err ArithFault.Memory → IsFound goal (left.now ∷ right.now ∷ []) result }
{
    match goal {
        Builtin::True | Builtin::Fail => Ok(false),
        Builtin::Unify => Ok(left.same(right)),
        Builtin::Is => is_value(alloc, left, right),
        Builtin::Equal => compare(alloc, Comparison::Equal, left, right),
        Builtin::Different => compare(alloc, Comparison::Different, left, right),
        Builtin::Less => compare(alloc, Comparison::Less, left, right),
        Builtin::LessEqual => compare(alloc, Comparison::LessEqual, left, right),
        Builtin::Greater => compare(alloc, Comparison::Greater, left, right),
        Builtin::GreaterEqual => compare(alloc, Comparison::GreaterEqual, left, right),
    }
}

/// None in place of a fault, unless it is want of memory.
fn unless_fault(found: Result<bool, ArithFault>) -> Result<Option<bool>, AllocError>
    ensures { result ≡ unless_fault found }
{
    match found {
        Ok(holds) => Ok(Some(holds)),
        Err(ArithFault::Memory) => Err(AllocError),
        Err(_) => Ok(None),
    }
}

/// Whether a ground atom of a built-in goal is true; none exactly where its evaluation faults. The only error is want of
/// memory.
pub fn truth(alloc: Global, atom: &Flat) -> Result<Option<bool>, AllocError>
    requires variable_free { IsGround atom.now }
    requires builtin { IsBuiltin atom.now }
    ensures none { IfOk result (λ found. IsNone found ↔ Faults atom.now) }
    ensures some { IfOk result (λ found. IfSome found
        (λ holds. IsTrue holds ↔ IsTrueAtom atom.now)) }
{
    match Builtin::of_atom(atom) {
        None | Some(Builtin::Fail) => Ok(Some(false)),
        Some(Builtin::True) => Ok(Some(true)),
        Some(goal) => {
            let left = atom.arg(alloc, 0)?;
            let right = atom.arg(alloc, 1)?;
            unless_fault(truth_of_two(alloc, goal, &left, &right))
        }
    }
}
