//! The reply that a term is.

ghost use Rattle.std.specs.Prelude.{◌≡◌, IfOk};
ghost use Rattle.apd_known.specs.Told.{truth_told, values_told, word_told};

use apd_answers::Reply;
use apd_term::elements::listed;
use apd_term::standard::{NO, UNKNOWN, YES};
use apd_term::{Flat, Pred};
use std::alloc::{AllocError, Global};

/// The reply that `yes` or `no` is.
pub fn word_told(term: &Flat) -> Option<Reply>
    ensures { result ≡ word_told term.now }
{
    match term.pred() {
        Some(
            Pred {
                name: YES,
                arity: 0,
            },
        ) => Some(Reply::Yes),
        Some(Pred { name: NO, arity: 0 }) => Some(Reply::No),
        _ => None,
    }
}

/// The reply that a word is to the question whether an atom is true, where that needn't be known.
pub fn truth_told(term: &Flat) -> Option<Reply>
    ensures { result ≡ truth_told term.now }
{
    match term.pred() {
        Some(
            Pred {
                name: UNKNOWN,
                arity: 0,
            },
        ) => Some(Reply::Unknown),
        _ => word_told(term),
    }
}

/// The reply that `no`, or `yes` of a list of values, is.
pub fn values_told(alloc: Global, term: &Flat) -> Result<Option<Reply>, AllocError>
    ensures { IfOk result (λ r. r ≡ values_told term.now) }
{
    match term.pred() {
        Some(Pred { name: NO, arity: 0 }) => Ok(Some(Reply::No)),
        Some(
            Pred {
                name: YES,
                arity: 1,
            },
        ) => {
            let list = term.arg(alloc, 0)?;
            Ok(listed(alloc, &list)?.map(Reply::Values))
        }
        _ => Ok(None),
    }
}
