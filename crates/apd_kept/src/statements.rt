//! Statements as terms.

ghost use Rattle.std.specs.Prelude.{◌≡◌, IfOk};
ghost use Rattle.apd_term.specs.Canonical.{canonical};
ghost use Rattle.apd_term.specs.Term.{compound, more, none};
ghost use Rattle.apd_kept.specs.Kept.{apart_from, reply_term, statement_of, trust_term};

use apd_answers::{Question, Reply};
use apd_clauses::indicators::indicator_of;
use apd_known::variable_count;
use apd_term::canonical::{canonical, shifted};
use apd_term::standard::{BELOW, COVERS, NO, TRUE, TRUSTED, UNKNOWN, YES};
use apd_term::{Atoms, Flat, NameId, Pred};
use apd_text::{clause_term, list_term};
use std::alloc::{AllocError, Global};

/// A name without arguments.
fn alone(alloc: Global, name: NameId) -> Result<Flat, AllocError>
    ensures { IfOk result (λ t. t ≡ compound name none) }
{
    Flat::compound(alloc, name, &Atoms::new(alloc))
}

/// A name with one argument.
fn of_one(alloc: Global, name: NameId, argument: Flat) -> Result<Flat, AllocError>
    ensures { IfOk result (λ t. t ≡ compound name (more argument none)) }
{
    let mut arguments = Atoms::new(alloc);
    arguments.push(argument)?;
    Flat::compound(alloc, name, &arguments)
}

/// A name with two arguments.
fn of_two(alloc: Global, name: NameId, first: Flat, second: Flat) -> Result<Flat, AllocError>
    ensures { IfOk result (λ t. t ≡ compound name (more first (more second none))) }
{
    let mut arguments = Atoms::new(alloc);
    arguments.push(first)?;
    arguments.push(second)?;
    Flat::compound(alloc, name, &arguments)
}

/// A name with three arguments.
fn of_three(
    alloc: Global,
    name: NameId,
    first: Flat,
    second: Flat,
    third: Flat,
) -> Result<Flat, AllocError>
    ensures { IfOk result (λ t. t ≡ compound name (more first (more second (more third none)))) }
{
    let mut arguments = Atoms::new(alloc);
    arguments.push(first)?;
    arguments.push(second)?;
    arguments.push(third)?;
    Flat::compound(alloc, name, &arguments)
}

/// A reply as a term.
fn reply_term(alloc: Global, reply: &Reply) -> Result<Flat, AllocError>
    ensures { IfOk result (λ t. t ≡ reply_term reply.now) }
{
    match reply {
        Reply::Yes => alone(alloc, YES),
        Reply::No => alone(alloc, NO),
        Reply::Unknown => alone(alloc, UNKNOWN),
        Reply::Values(values) => of_one(alloc, YES, list_term(alloc, values.as_slice())?),
    }
}

/// A call in canonical form, with the numbers of its variables behind those of another. Where these numbers had no room, there
/// would be no memory for the terms.
fn apart_from(alloc: Global, other: &Flat, call: &Flat) -> Result<Flat, AllocError>
    ensures { IfOk result (λ t. t ≡ apart_from other.now call.now) }
{
    let base = variable_count(alloc, other)? as u64;
    if base > u64::MAX - call.size() {
        return Err(AllocError);
    }
    let form = canonical(alloc, call)?;
    shifted(alloc, &form, base)
}

/// A question with its reply as a statement.
fn statement_of(alloc: Global, question: &Question, said: Flat) -> Result<Flat, AllocError>
    ensures { IfOk result (λ t. t ≡ statement_of question.now said) }
{
    match question {
        Question::True(atom) => of_two(alloc, TRUE, atom.copy(alloc)?, said),
        Question::Covers(tuple) => of_two(alloc, COVERS, clause_term(alloc, tuple)?, said),
        Question::Below(callee, caller) => {
            let other = apart_from(alloc, callee, caller)?;
            of_three(alloc, BELOW, canonical(alloc, callee)?, other, said)
        }
    }
}

/// A question with its reply as a statement in canonical form.
pub(crate) fn pair_term(
    alloc: Global,
    question: &Question,
    reply: &Reply,
) -> Result<Flat, AllocError>
    ensures { IfOk result (λ t.
        t ≡ canonical (statement_of question.now (reply_term reply.now))) }
{
    let said = reply_term(alloc, reply)?;
    let statement = statement_of(alloc, question, said)?;
    canonical(alloc, &statement)
}

/// Trust in a predicate as a statement.
pub(crate) fn trust_term(alloc: Global, pred: Pred) -> Result<Flat, AllocError>
    ensures { IfOk result (λ t. t ≡ trust_term pred) }
{
    of_one(alloc, TRUSTED, indicator_of(alloc, pred)?)
}
