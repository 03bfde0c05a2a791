//! An oracle that has all its replies beforehand.

ghost use Rattle.std.specs.Prelude.{◌≡◌, IfOk, None};
ghost use Rattle.apd_known.specs.Scripts.{fits_asked, fits_body, scripted_reply};

use crate::values::{are_true_if_builtin, unknown_count};
use apd_answers::store::is_same_form;
use apd_answers::{Answers, AskEnd, Asked, Oracle, Question, Reply, with_values};
use apd_arith::are_ground;
use apd_term::{Atoms, Tuple};
use std::alloc::{AllocError, Global};

/// Whether values fit a body: they are ground, as many as it has variables, and make each built-in atom true.
///
/// # Errors
///
/// Where there was no memory.
fn fits_body(alloc: Global, tuple: &Tuple, values: &Atoms) -> Result<bool, AllocError>
    ensures { IfOk result (λ b. b ≡ fits_body tuple.now values.now) }
{
    if !are_ground(values) || values.len() != unknown_count(alloc, tuple)? {
        return Ok(false);
    }
    let body = with_values(alloc, tuple, values)?;
    are_true_if_builtin(alloc, &body)
}

/// Whether a reply fits what is asked.
///
/// # Errors
///
/// Where there was no memory.
pub fn fits_asked(alloc: Global, asked: &Asked, reply: &Reply) -> Result<bool, AllocError>
    ensures { IfOk result (λ b. b ≡ fits_asked asked.now reply.now) }
{
    match (&asked.question, reply) {
        (Question::Covers(tuple), Reply::Values(values)) => fits_body(alloc, tuple, values),
        (Question::Covers(_), Reply::No) => Ok(true),
        (Question::Covers(_), Reply::Yes | Reply::Unknown) => Ok(false),
        (Question::True(_), Reply::Unknown) => Ok(asked.suspects.is_some()),
        (Question::Below(_, _), Reply::Unknown) => Ok(false),
        (Question::True(_) | Question::Below(_, _), Reply::Yes | Reply::No) => Ok(true),
        (Question::True(_) | Question::Below(_, _), Reply::Values(_)) => Ok(false),
    }
}

/// The reply of the first pair with this question that fits what is asked.
fn scripted_reply(
    alloc: Global,
    pairs: &Answers,
    asked: &Asked,
) -> Result<Option<Reply>, AllocError>
    ensures { IfOk result (λ r. r ≡ scripted_reply pairs.now.pairs asked.now) }
{
    'pairs: for i in 0..pairs.len() {
        let reply = pairs.reply(i);
        let is_same = is_same_form(alloc, pairs.question(i), &asked.question)?;
        if is_same && fits_asked(alloc, asked, reply)? {
            return Ok(Some(reply.copy(alloc)?));
        }
    }
    Ok(None)
}

/// An oracle that has all its replies beforehand: to a question, that of the first pair with this question that fits it as
/// it is asked.
#[derive(Drop)]
pub struct Scripted {
    alloc: Global,
    /// The questions and their replies.
    pub pairs: Answers,
    /// Why the last question had no reply, if there was none.
    pub end: Option<AskEnd>,
}

impl Scripted {
    /// An oracle with these replies.
    pub fn new(alloc: Global, pairs: Answers) -> Scripted
        ensures pairs { result.pairs ≡ pairs }
        ensures end { result.end ≡ None }
    {
        Scripted {
            alloc,
            pairs,
            end: None,
        }
    }
}

impl Oracle for Scripted {
    ghost use Rattle.apd_known.specs.Scripts.{Scripts};

    ghost end = { λ s. s.end };

    ghost read_faults = { λ _. 0 };

    ghost write_faults = { λ _. 0 };

    ghost step = { λ s call t. (t.pairs ≡ s.pairs) × Scripts s.pairs call };

    fn ask(&mut self, asked: &Asked) -> Result<Reply, AskEnd> {
        match scripted_reply(self.alloc, &self.pairs, asked)? {
            Some(reply) => Ok(reply),
            None => {
                self.end = Some(AskEnd::Ended);
                Err(AskEnd::Ended)
            }
        }
    }

    fn told(&mut self, _reply: &Reply, _left: Option<u32>) -> Result<(), AskEnd> {
        Ok(())
    }
}
