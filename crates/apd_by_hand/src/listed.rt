//! Whoever replies from a list.

ghost use Rattle.std.specs.Prelude.{◌≡◌, None};
ghost use Rattle.apd_answers.specs.Questions.{FitsAsked};

use apd_answers::{AskEnd, Asked, Oracle, Question, Reply};

/// Whoever replies yes or no from a list, in order, and has no reply behind its end.
#[derive(Drop)]
pub struct Listed<'r> {
    /// What is still to be replied: whether yes.
    pub left: &'r [bool],
    /// Why the last question had no reply.
    pub end: Option<AskEnd>,
}

impl<'r> Listed<'r> {
    /// These replies.
    pub fn new(replies: &'r [bool]) -> Listed<'r>
        ensures left { result.left.now ≡ replies.entry.now }
        ensures end { result.end ≡ None }
    {
        Listed {
            left: replies,
            end: None,
        }
    }
}

/// The reply of this kind to what is asked; to a question of values, that there are none.
fn reply_of(asked: &Asked, yes: bool) -> Reply
    ensures { FitsAsked asked.now result }
{
    match &asked.question {
        Question::True(_) | Question::Below(_, _) => { if yes { Reply::Yes } else { Reply::No } }
        Question::Covers(_) => Reply::No,
    }
}

impl Oracle for Listed<'_> {
    ghost use Rattle.apd_by_hand.specs.Listed.{Takes};

    ghost end = { λ o. o.end };

    ghost read_faults = { λ o. 0 };

    ghost write_faults = { λ o. 0 };

    ghost step = { λ o call p. Takes call o.left.now p.left.now };

    fn ask(&mut self, asked: &Asked) -> Result<Reply, AskEnd> {
        match self.left.split_first() {
            Some((yes, left)) => {
                self.left = left;
                Ok(reply_of(asked, *yes))
            }
            None => {
                self.end = Some(AskEnd::Ended);
                Err(AskEnd::Ended)
            }
        }
    }

    fn told(&mut self, _reply: &Reply, _left: Option<u32>) -> Result<(), AskEnd> {
        Ok(())
    }
}
