//! Who may reply to a question before the user is asked.

use crate::question::{Question, Reply};
use std::alloc::AllocError;

/// Who may reply to a question before the user is asked.
pub trait Replier {
    ghost use Rattle.std.specs.Prelude.{◌≡◌, ℕ, Option, IfOk};
    ghost use Rattle.apd_answers.specs.Repliers.{RepliesAreNamed, RepliesFit};
    ghost use Rattle.apd_answers.specs.declared.question.Question.{Question};
    ghost use Rattle.apd_answers.specs.declared.question.Reply.{Reply};

    /// What it replies to each question, if anything.
    ghost replies: { Self → Question → Option Reply };

    /// So many names its replies are made of, beside those of their questions.
    ghost names: { Self → ℕ };

    /// The reply to a question, if there is one. It fits the question and isn't that it isn't known, and the replier stays
    /// as it is, so that it replies the same from then on. The only error is want of memory.
    fn reply(&mut self, question: &Question) -> Result<Option<Reply>, AllocError>
        ensures reply { IfOk result (λ r. r ≡ replies self.old question.now) }
        ensures same { self.new ≡ self.old }
        ensures fits { RepliesFit (replies self.old) }
        ensures named { RepliesAreNamed (names self.old) (replies self.old) };
}

/// Who never replies.
#[derive(Drop)]
pub struct NoReplier;

impl Replier for NoReplier {
    ghost use Rattle.apd_answers.specs.Repliers.{nobody};

    ghost replies = { λ s. nobody };

    ghost names = { λ s. 0 };

    fn reply(&mut self, _question: &Question) -> Result<Option<Reply>, AllocError> {
        Ok(None)
    }
}
