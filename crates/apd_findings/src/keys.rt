//! Keys of canonical forms: what stands for a term and its variants in a set.

ghost use Rattle.std.specs.Prelude.{◌≡◌, IfOk};
ghost use Rattle.apd_term.specs.Canonical.{canonical};
ghost use Rattle.apd_marks.specs.Keys.{key};

use apd_marks::{KeyPart, key_of};
use apd_term::Flat;
use apd_term::canonical::canonical;
use indexmap::IndexSet;
use std::alloc::{AllocError, Global};

/// Keys, each once.
pub(crate) type Keys = IndexSet<Vec<KeyPart>>;

/// The key of a term's canonical form, which its variants have too, and no other term.
pub(crate) fn key_of_form(alloc: Global, term: &Flat) -> Result<Vec<KeyPart>, AllocError>
    ensures { IfOk result (λ k. k.items ≡ key (canonical term.now)) }
{
    let form = canonical(alloc, term)?;
    key_of(alloc, &form)
}
