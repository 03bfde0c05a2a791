//! Whether atoms are true by the replies alone.

ghost use Rattle.std.specs.Prelude.{◌≡◌, IfOk};
ghost use Rattle.std.specs.List.{list_all};
ghost use Rattle.apd_findings.specs.Deciding.{affirms};

use crate::always::stands;
use crate::parted::Parted;
use apd_arith::Builtin;
use apd_term::Flat;
use std::alloc::{AllocError, Global};

/// Whether the store says yes to the atom, or it is one of a built-in goal and always true.
fn affirms(alloc: Global, answers: &Parted, atom: &Flat) -> Result<bool, AllocError>
    ensures { IfOk result (λ b. b ≡ affirms answers.now atom.now) }
{
    if Builtin::of_atom(atom).is_some() {
        return stands(alloc, atom);
    }
    answers.says_yes(alloc, atom)
}

/// Whether that is so of each of these.
pub fn affirms_all(alloc: Global, answers: &Parted, atoms: &[Flat]) -> Result<bool, AllocError>
    ensures { IfOk result (λ b. b ≡ list_all (affirms answers.now) atoms.now) }
{
    'atoms: for atom in atoms {
        if !affirms(alloc, answers, atom)? {
            return Ok(false);
        }
    }
    Ok(true)
}
