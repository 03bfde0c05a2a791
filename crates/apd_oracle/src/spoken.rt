//! What a line says in the place of a reply.

ghost use Rattle.std.specs.Prelude.{◌≡◌, IfOk};
ghost use Rattle.apd_oracle.specs.Replies.{reply_spoken, spoken_of, term_spoken, told};

use crate::values::values_spoken;
use apd_answers::{Asked, Question, Reply};
use apd_known::{truth_told, values_told, word_told};
use apd_lines::LineRead;
use apd_term::standard::{QUIT, STOP};
use apd_term::{Flat, Pred};
use apd_text::Reason;
use std::alloc::{AllocError, Global};

/// What a line says in the place of a reply.
#[derive(Drop)]
pub enum Spoken {
    /// The line has no token.
    Nothing,
    /// It is this reply.
    Reply(Reply),
    /// The diagnosis is to stop.
    Stop,
    /// The session is to end.
    Quit,
    /// It is none of these, and why.
    Bad(Reason),
}

/// The reply that a term is to what is asked: where suspects are counted, whether an atom is true needn't be known.
fn told(alloc: Global, asked: &Asked, term: &Flat) -> Result<Option<Reply>, AllocError>
    ensures { IfOk result (λ r. r ≡ told asked.now term.now) }
{
    match (&asked.question, asked.suspects) {
        (Question::True(_), Some(_)) => Ok(truth_told(term)),
        (Question::True(_), None) | (Question::Below(_, _), _) => Ok(word_told(term)),
        (Question::Covers(_), _) => values_told(alloc, term),
    }
}

/// What a reply, if there is one, says in the place of one to this question.
fn reply_spoken(
    alloc: Global,
    question: &Question,
    reply: Option<Reply>,
) -> Result<Spoken, AllocError>
    ensures { IfOk result (λ s. s ≡ reply_spoken question.now reply) }
{
    match (question, reply) {
        (_, None) => Ok(Spoken::Bad(Reason::NotAReply)),
        (Question::Covers(tuple), Some(Reply::Values(values))) => {
            values_spoken(alloc, tuple, values)
        }
        (_, Some(reply)) => Ok(Spoken::Reply(reply)),
    }
}

/// What a term says.
fn term_spoken(alloc: Global, asked: &Asked, term: &Flat) -> Result<Spoken, AllocError>
    ensures { IfOk result (λ s. s ≡ term_spoken asked.now term.now) }
{
    match term.pred() {
        Some(
            Pred {
                name: STOP,
                arity: 0,
            },
        ) => Ok(Spoken::Stop),
        Some(
            Pred {
                name: QUIT,
                arity: 0,
            },
        ) => Ok(Spoken::Quit),
        _ => {
            let reply = told(alloc, asked, term)?;
            reply_spoken(alloc, &asked.question, reply)
        }
    }
}

/// What a line, of which this was read, says in the place of a reply to what is asked.
///
/// # Errors
///
/// Where there was no memory.
pub fn spoken_of(alloc: Global, asked: &Asked, read: &LineRead) -> Result<Spoken, AllocError>
    ensures { IfOk result (λ s. s ≡ spoken_of asked.now read.now) }
{
    match read {
        LineRead::Empty => Ok(Spoken::Nothing),
        LineRead::TooLong => Ok(Spoken::Bad(Reason::TooLong)),
        LineRead::Bad(_) => Ok(Spoken::Bad(Reason::Syntax)),
        LineRead::Clause(read) => term_spoken(alloc, asked, &read.term),
    }
}
