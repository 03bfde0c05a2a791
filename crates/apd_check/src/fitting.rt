//! Whether a reply fits what was asked.

ghost use Rattle.std.specs.Prelude.{◌↔◌, IfOk, IsTrue};
ghost use Rattle.apd_answers.specs.Questions.{FitsAsked};
ghost use Rattle.apd_known.specs.Pairs.{MayAsk};

use apd_answers::{Asked, Reply};
use apd_known::fits_asked;
use std::alloc::{AllocError, Global};

/// Whether a reply fits what was asked and may be asked.
pub(crate) fn fits(alloc: Global, asked: &Asked, reply: &Reply) -> Result<bool, AllocError>
    requires { MayAsk asked.now.question }
    ensures { IfOk result (λ b. IsTrue b ↔ FitsAsked asked.now reply.now) }
{
    fits_asked(alloc, asked, reply)
}
