//! Tuples, shifted and measured.

ghost use Rattle.std.specs.Prelude.{◌≡◌, ℕ, ◌+◌, ◌<◌, ◌^◌, map, IfOk};
ghost use Rattle.std.specs.List.{flat_map};
ghost use Rattle.apd_term.specs.Term.{IsAmong, apply, variable, variables};
ghost use Rattle.apd_term.specs.Tuple.{variables_of_tuple};
ghost use Rattle.apd_trace.specs.Frames.{is_large, shifted_tuple};

use apd_base::MOST_INSTANCE_SYMBOLS;
use apd_term::canonical::shifted;
use apd_term::{Atoms, Flat, Tuple};
use std::alloc::{AllocError, Global};

/// The terms with each variable's number raised.
fn shifted_terms(alloc: Global, terms: &[Flat], base: u64) -> Result<Atoms, AllocError>
    requires { (v : ℕ) → IsAmong (flat_map variables terms.now) v → base + v < 2 ^ 64 }
    ensures { IfOk result (λ r. r ≡ map (apply (λ v. variable (base + v))) terms.now) }
{
    let mut all = Atoms::new(alloc);
    'terms: for term in terms {
        let moved = shifted(alloc, term, base)?;
        all.push(moved)?;
    }
    Ok(all)
}

/// The tuple with each variable's number raised.
pub fn shifted_tuple(alloc: Global, t: &Tuple, base: u64) -> Result<Tuple, AllocError>
    requires { (v : ℕ) → IsAmong (variables_of_tuple t.now) v → base + v < 2 ^ 64 }
    ensures { IfOk result (λ r. r ≡ shifted_tuple base t.now) }
{
    let head = shifted(alloc, &t.head, base)?;
    let body = shifted_terms(alloc, t.body.as_slice(), base)?;
    Ok(Tuple { head, body })
}

/// Whether the tuple has more symbols than it may have.
pub fn is_large(t: &Tuple) -> bool
    ensures { result ≡ is_large t.now }
{
    t.size() > MOST_INSTANCE_SYMBOLS
}
