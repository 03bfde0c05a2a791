//! What a clause of an oracle file states.

ghost use Rattle.std.specs.Prelude.{◌≡◌, true, IfOk};
ghost use Rattle.apd_term.specs.Term.{predicate_of};
ghost use Rattle.apd_term.specs.declared.standard.TheConstants as names;
ghost use Rattle.apd_clauses.specs.Bodies.{clause_from};
ghost use Rattle.apd_clauses.specs.Kinds.{◌∕◌};
ghost use Rattle.apd_clauses.specs.Predicates.{is_pred};
ghost use Rattle.apd_known.specs.declared.statements.FileForm.{FileForm};
ghost use Rattle.apd_known.specs.Statements.{is_rule, is_own_atom, body_stated, cover_stated, of_reply, order_stated, reply_stated, solution_stated, term_stated, trust_stated, truth_in, truth_stated, values_stated};

use crate::told::{truth_told, values_told, word_told};
use crate::values::{are_true_if_builtin, unknown_count};
use apd_answers::{Pair, Question, Reply, with_values};
use apd_arith::are_ground;
use apd_causes::{BodyFault, OracleCause};
use apd_clauses::indicators::predicate_from;
use apd_clauses::{Kind, clause_of, kind_of};
use apd_term::canonical::canonical;
use apd_term::standard::{BELOW, COVERS, NECK, TRUE, TRUSTED};
use apd_term::{Atoms, Flat, Pred, Tuple};
use std::alloc::{AllocError, Global};

/// Which statements an oracle file may have.
#[derive(Clone, Copy)]
pub enum FileForm {
    /// Replies that are yes, no, or values.
    First,
    /// Besides these, replies that something isn't known, and trust in predicates.
    Second,
}

/// What a statement says.
#[derive(Drop)]
pub(crate) enum Statement {
    /// This is the reply to a question.
    Replies(Pair),
    /// What the program proves of this predicate is true.
    Trusts(Pred),
}

/// The question and the reply that a clause states, or why it states none.
type StatedPair = Result<Pair, OracleCause>;

/// Whether the term is an atom of a predicate that a program may define.
fn is_own_atom(term: &Flat) -> bool
    ensures { result ≡ is_own_atom term.now }
{
    match term.pred() {
        Some(pred) => matches!(kind_of(pred), Kind::User),
        None => false,
    }
}

/// The reply that a word is to whether an atom is true, in a file of this form.
fn truth_in(form: FileForm, word: &Flat) -> Option<Reply>
    ensures { result ≡ truth_in form word.now }
{
    match form {
        FileForm::First => word_told(word),
        FileForm::Second => truth_told(word),
    }
}

/// What `true(A, R)` states.
fn truth_stated(atom: Flat, reply: Option<Reply>) -> StatedPair
    ensures { result ≡ truth_stated atom reply }
{
    let Some(reply) = reply else {
        return Err(OracleCause::NotAStatement);
    };
    if !is_own_atom(&atom) {
        return Err(OracleCause::NotUserAtom);
    }
    Ok(Pair {
        question: Question::True(atom),
        reply,
    })
}

/// What `below(Q, P, R)` states.
fn order_stated(
    alloc: Global,
    callee: &Flat,
    caller: &Flat,
    reply: Option<Reply>,
) -> Result<StatedPair, AllocError>
    ensures { IfOk result (λ s. s ≡ order_stated callee.now caller.now reply) }
{
    let Some(reply) = reply else {
        return Ok(Err(OracleCause::NotAStatement));
    };
    if !is_own_atom(callee) || !is_own_atom(caller) {
        return Ok(Err(OracleCause::NotUserAtom));
    }
    let question = Question::Below(canonical(alloc, callee)?, canonical(alloc, caller)?);
    Ok(Ok(Pair { question, reply }))
}

/// What values of a body's variables state.
fn values_stated(alloc: Global, tuple: Tuple, values: Atoms) -> Result<StatedPair, AllocError>
    ensures { IfOk result (λ s. s ≡ values_stated tuple values) }
{
    if !are_ground(&values) {
        return Ok(Err(OracleCause::NotGround));
    }
    if values.len() != unknown_count(alloc, &tuple)? {
        return Ok(Err(OracleCause::WrongCount));
    }
    let body = with_values(alloc, &tuple, &values)?;
    if !are_true_if_builtin(alloc, &body)? {
        return Ok(Err(OracleCause::BuiltinFalse));
    }
    Ok(Ok(Pair {
        question: Question::Covers(tuple),
        reply: Reply::Values(values),
    }))
}

/// What a reply to whether a clause with a ground head covers states.
fn solution_stated(alloc: Global, tuple: Tuple, reply: Reply) -> Result<StatedPair, AllocError>
    ensures { IfOk result (λ s. s ≡ solution_stated tuple reply) }
{
    match reply {
        Reply::Yes | Reply::Unknown => Ok(Err(OracleCause::NotAStatement)),
        Reply::No => Ok(Ok(Pair {
            question: Question::Covers(tuple),
            reply: Reply::No,
        })),
        Reply::Values(values) => values_stated(alloc, tuple, values),
    }
}

/// What a reply to whether a clause covers states.
fn body_stated(alloc: Global, clause: &Flat, reply: Reply) -> Result<StatedPair, AllocError>
    ensures { IfOk result (λ s. s ≡ body_stated (clause_from clause.now) reply) }
{
    match clause_of(alloc, clause) {
        Err(BodyFault::Memory) => Err(AllocError),
        Err(_) => Ok(Err(OracleCause::NotAStatement)),
        Ok(tuple) if !tuple.head.is_ground() => Ok(Err(OracleCause::NotGround)),
        Ok(tuple) => solution_stated(alloc, tuple, reply),
    }
}

/// Whether the term is a clause with a body.
fn is_rule(term: &Flat) -> bool
    ensures { result ≡ is_rule term.now }
{
    matches!(
        term.pred(),
        Some(Pred {
            name: NECK,
            arity: 2
        })
    )
}

/// What `covers(C, R)` states.
fn cover_stated(
    alloc: Global,
    clause: &Flat,
    reply: Option<Reply>,
) -> Result<StatedPair, AllocError>
    ensures { IfOk result (λ s. s ≡ cover_stated clause.now reply) }
{
    match reply {
        Some(reply) if is_rule(clause) => body_stated(alloc, clause, reply),
        _ => Ok(Err(OracleCause::NotAStatement)),
    }
}

/// What a clause of the predicate `true/2` states.
fn truth_clause(alloc: Global, form: FileForm, term: &Flat) -> Result<StatedPair, AllocError>
    requires { is_pred (predicate_of term.now) (names.TRUE ∕ 2) ≡ true }
    ensures { IfOk result (λ s. s ≡ reply_stated form term.now) }
{
    let atom = term.arg(alloc, 0)?;
    let word = term.arg(alloc, 1)?;
    Ok(truth_stated(atom, truth_in(form, &word)))
}

/// What a clause of the predicate `covers/2` states.
fn cover_clause(alloc: Global, term: &Flat) -> Result<StatedPair, AllocError>
    requires { is_pred (predicate_of term.now) (names.COVERS ∕ 2) ≡ true }
    ensures { (form : FileForm) → IfOk result (λ s. s ≡ reply_stated form term.now) }
{
    let clause = term.arg(alloc, 0)?;
    let reply = term.arg(alloc, 1)?;
    cover_stated(alloc, &clause, values_told(alloc, &reply)?)
}

/// What a clause of the predicate `below/3` states.
fn order_clause(alloc: Global, term: &Flat) -> Result<StatedPair, AllocError>
    requires { is_pred (predicate_of term.now) (names.BELOW ∕ 3) ≡ true }
    ensures { (form : FileForm) → IfOk result (λ s. s ≡ reply_stated form term.now) }
{
    let callee = term.arg(alloc, 0)?;
    let caller = term.arg(alloc, 1)?;
    let word = term.arg(alloc, 2)?;
    order_stated(alloc, &callee, &caller, word_told(&word))
}

/// The question and the reply that a clause states, or the first cause why it states none.
#[tactic(auto, unfolding(crate::specs::Statements::reply_stated))]
fn reply_stated(alloc: Global, form: FileForm, term: &Flat) -> Result<StatedPair, AllocError>
    ensures { IfOk result (λ s. s ≡ reply_stated form term.now) }
{
    match term.pred() {
        Some(
            Pred {
                name: TRUE,
                arity: 2,
            },
        ) => truth_clause(alloc, form, term),
        Some(
            Pred {
                name: COVERS,
                arity: 2,
            },
        ) => cover_clause(alloc, term),
        Some(
            Pred {
                name: BELOW,
                arity: 3,
            },
        ) => order_clause(alloc, term),
        _ => Ok(Err(OracleCause::NotAStatement)),
    }
}

/// What `trusted(P)` states, where P tells this predicate, if it tells one.
fn trust_stated(form: FileForm, told: Option<Pred>) -> Result<Statement, OracleCause>
    ensures { result ≡ trust_stated form told }
{
    match (form, told) {
        (FileForm::Second, Some(pred)) => match kind_of(pred) {
            Kind::User => Ok(Statement::Trusts(pred)),
            _ => Err(OracleCause::NotUserAtom),
        },
        _ => Err(OracleCause::NotAStatement),
    }
}

/// A reply as a statement.
fn of_reply(stated: StatedPair) -> Result<Statement, OracleCause>
    ensures { result ≡ of_reply stated }
{
    match stated {
        Ok(pair) => Ok(Statement::Replies(pair)),
        Err(cause) => Err(cause),
    }
}

/// Whether the term is `trusted` of one argument.
fn is_trust(term: &Flat) -> bool
    ensures { result ≡ is_pred (predicate_of term.now) (names.TRUSTED ∕ 1) }
{
    matches!(
        term.pred(),
        Some(Pred {
            name: TRUSTED,
            arity: 1
        })
    )
}

/// What a clause of a file of this form states, or the first cause why it is no statement.
pub(crate) fn term_stated(
    alloc: Global,
    form: FileForm,
    term: &Flat,
) -> Result<Result<Statement, OracleCause>, AllocError>
    ensures { IfOk result (λ s. s ≡ term_stated form term.now) }
{
    if !is_trust(term) {
        return Ok(of_reply(reply_stated(alloc, form, term)?));
    }
    let indicator = term.arg(alloc, 0)?;
    Ok(trust_stated(form, predicate_from(&indicator)))
}
