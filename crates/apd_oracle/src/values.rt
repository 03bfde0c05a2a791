//! Whether values fit a question.

ghost use Rattle.std.specs.Prelude.{◌≡◌, IfOk};
ghost use Rattle.apd_oracle.specs.Replies.{values_spoken};

use crate::spoken::Spoken;
use apd_answers::{Reply, with_values};
use apd_arith::are_ground;
use apd_known::{are_true_if_builtin, unknown_count};
use apd_term::{Atoms, Tuple};
use apd_text::Reason;
use std::alloc::{AllocError, Global};

/// What values say in the place of a reply to the question whether this tuple covers: they are one, or why they aren't.
pub(crate) fn values_spoken(
    alloc: Global,
    tuple: &Tuple,
    values: Atoms,
) -> Result<Spoken, AllocError>
    ensures { IfOk result (λ s. s ≡ values_spoken tuple.now values) }
{
    if values.len() != unknown_count(alloc, tuple)? {
        return Ok(Spoken::Bad(Reason::WrongCount));
    }
    if !are_ground(&values) {
        return Ok(Spoken::Bad(Reason::NotGround));
    }
    let body = with_values(alloc, tuple, &values)?;
    if !are_true_if_builtin(alloc, &body)? {
        return Ok(Spoken::Bad(Reason::BuiltinFalse));
    }
    Ok(Spoken::Reply(Reply::Values(values)))
}
