//! Whether values fit a body.

ghost use Rattle.std.specs.Prelude.{◌≡◌, length, [], IfOk, OnOk};
ghost use Rattle.std.specs.List.{flat_map, fold, list_all};
ghost use Rattle.apd_term.specs.Canonical.{by_appearance, with_new};
ghost use Rattle.apd_term.specs.Term.{variables};
ghost use Rattle.apd_answers.specs.Questions.{unknowns};
ghost use Rattle.apd_known.specs.Truths.{is_true_if_builtin};

use apd_arith::{Builtin, truth};
use apd_term::{Atoms, Flat, Sym, Tuple};
use indexmap::IndexSet;
use std::alloc::{AllocError, Global};

/// Puts the variable behind those that were seen, unless it is one of them.
fn note(seen: &mut IndexSet<u64>, v: u64) -> Result<(), AllocError>
    ensures { OnOk result (seen.new.keys ≡ with_new seen.old.keys v) }
{
    seen.insert(v)?;
    Ok(())
}

/// Puts the term's variables behind those that were seen, each once.
fn note_variables(seen: &mut IndexSet<u64>, term: &Flat) -> Result<(), AllocError>
    ensures { OnOk result (seen.new.keys ≡ fold with_new seen.old.keys (variables term.now)) }
{
    'symbols: for symbol in term.symbols() {
        if let Sym::Var(v) = symbol {
            note(seen, *v)?;
        }
    }
    Ok(())
}

/// How many variables the term has, each counted once.
pub fn variable_count(alloc: Global, term: &Flat) -> Result<usize, AllocError>
    ensures { IfOk result (λ n. n ≡ length (by_appearance (variables term.now))) }
{
    let mut seen = IndexSet::new(alloc);
    note_variables(&mut seen, term)?;
    Ok(seen.len())
}

/// How many variables the body has.
pub fn unknown_count(alloc: Global, tuple: &Tuple) -> Result<usize, AllocError>
    ensures { IfOk result (λ n. n ≡ length (unknowns tuple.now)) }
{
    let mut seen = IndexSet::new(alloc);
    'atoms: for atom in tuple.body.as_slice() {
        note_variables(&mut seen, atom)?;
    }
    Ok(seen.len())
}

/// Whether an atom of a built-in goal is ground and true; other atoms pass.
fn is_true_if_builtin(alloc: Global, atom: &Flat) -> Result<bool, AllocError>
    ensures { IfOk result (λ b. b ≡ is_true_if_builtin atom.now) }
{
    if Builtin::of_atom(atom).is_none() {
        return Ok(true);
    }
    if !atom.is_ground() {
        return Ok(false);
    }
    Ok(truth(alloc, atom)?.unwrap_or(false))
}

/// Whether each atom of a built-in goal is true.
pub fn are_true_if_builtin(alloc: Global, atoms: &Atoms) -> Result<bool, AllocError>
    ensures { IfOk result (λ b. b ≡ list_all is_true_if_builtin atoms.now) }
{
    'atoms: for atom in atoms.as_slice() {
        if !is_true_if_builtin(alloc, atom)? {
            return Ok(false);
        }
    }
    Ok(true)
}
