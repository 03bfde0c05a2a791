//! The entry whose text a line may be, made of the terms in it.

ghost use Rattle.std.specs.Prelude.{◌≡◌, ◌↔◌, IsTrue, IfOk, Some};
ghost use Rattle.apd_term.specs.declared.standard.TheConstants as names;
ghost use Rattle.apd_term.specs.declared.term.Sym.TheVariants as symbols;
ghost use Rattle.apd_claims.specs.Claims.{asked, call_entry, entry_for, goals_in, pair_in, reply_in, tuple_in};

use crate::form::{Calling, LineFrame, NumberedQuestion};
use apd_answers::{Asked, Finding, Question, Reply};
use apd_known::{truth_told, values_told};
use apd_term::matching::piece_at;
use apd_term::standard::{COMMA, NECK};
use apd_term::term::term_end;
use apd_term::{Atoms, Flat, Pred, Sym, Tuple};
use apd_text::Entry;
use std::alloc::{AllocError, Global};

/// Whether a symbol is the comma between two goals.
fn is_comma(symbol: Sym) -> bool
    ensures { IsTrue result ↔ (symbol ≡ symbols.Fun names.COMMA 2) }
{
    match symbol {
        Sym::Fun(name, arity) => name == COMMA && arity == 2,
        Sym::Var(_) | Sym::Int(_) => false,
    }
}

/// The first goal of a body and those behind a comma.
fn goals_in(alloc: Global, body: &Flat) -> Result<Atoms, AllocError>
    ensures { IfOk result (λ ts. ts ≡ goals_in body.now) }
{
    let symbols = body.symbols();
    let mut goals = Atoms::new(alloc);
    let mut at = 0;
    'commas: while is_comma(symbols[at]) {
        let end = term_end(symbols, at + 1);
        goals.push(piece_at(alloc, symbols, at + 1, end)?)?;
        at = end;
    }
    let end = term_end(symbols, at);
    goals.push(piece_at(alloc, symbols, at, end)?)?;
    Ok(goals)
}

/// The clause that is written as this term.
pub(crate) fn tuple_in(alloc: Global, term: &Flat) -> Result<Tuple, AllocError>
    ensures { IfOk result (λ t. t ≡ tuple_in term.now) }
{
    match term.pred() {
        Some(
            Pred {
                name: NECK,
                arity: 2,
            },
        ) => {
            let head = term.arg(alloc, 0)?;
            let body = term.arg(alloc, 1)?;
            let body = goals_in(alloc, &body)?;
            Ok(Tuple { head, body })
        }
        _ => Ok(Tuple {
            head: term.copy(alloc)?,
            body: Atoms::new(alloc),
        }),
    }
}

/// The question whether the first argument of a term with two is below the second.
fn pair_in(alloc: Global, term: &Flat) -> Result<Option<Question>, AllocError>
    ensures { IfOk result (λ q. q ≡ pair_in term.now) }
{
    match term.pred() {
        Some(Pred { name: _, arity: 2 }) => {
            let callee = term.arg(alloc, 0)?;
            let caller = term.arg(alloc, 1)?;
            Ok(Some(Question::Below(callee, caller)))
        }
        _ => Ok(None),
    }
}

/// The reply that a term is.
fn reply_in(alloc: Global, term: &Flat) -> Result<Option<Reply>, AllocError>
    ensures { IfOk result (λ r. r ≡ reply_in term.now) }
{
    match truth_told(term) {
        Some(reply) => Ok(Some(reply)),
        None => values_told(alloc, term),
    }
}

/// A question, with its numbers.
fn asked(
    alloc: Global,
    place: NumberedQuestion,
    question: Question,
) -> Result<Option<Entry>, AllocError>
    ensures { IfOk result (λ e. e ≡ Some (asked place question)) }
{
    let form = question.canonical(alloc);
    // Dropped by a call: else each part of each kind of question is a step to check.
    drop(question);
    Ok(Some(Entry::Question {
        number: place.number,
        asked: Asked {
            question: form?,
            suspects: place.suspects,
        },
    }))
}

/// The question of a body.
fn cover_entry(
    alloc: Global,
    place: NumberedQuestion,
    term: &Flat,
) -> Result<Option<Entry>, AllocError>
    ensures { IfOk result (λ e. e ≡ entry_for (LineFrame.Cover place) term.now) }
{
    let tuple = tuple_in(alloc, term)?;
    asked(alloc, place, Question::Covers(tuple))
}

/// The question of two terms.
fn order_entry(
    alloc: Global,
    place: NumberedQuestion,
    term: &Flat,
) -> Result<Option<Entry>, AllocError>
    ensures { IfOk result (λ e. e ≡ entry_for (LineFrame.Order place) term.now) }
{
    match pair_in(alloc, term)? {
        Some(question) => asked(alloc, place, question),
        None => Ok(None),
    }
}

/// A reply.
fn reply_entry(
    alloc: Global,
    left: Option<u32>,
    by_reference: bool,
    term: &Flat,
) -> Result<Option<Entry>, AllocError>
    ensures { IfOk result (λ e. e ≡ entry_for (LineFrame.Reply left by_reference) term.now) }
{
    match reply_in(alloc, term)? {
        Some(reply) => Ok(Some(Entry::Replied {
            reply,
            left,
            by_reference,
        })),
        None => Ok(None),
    }
}

/// A wrong instance of a clause.
fn instance_entry(
    alloc: Global,
    clause: u32,
    line: u32,
    term: &Flat,
) -> Result<Option<Entry>, AllocError>
    ensures { IfOk result (λ e. e ≡ entry_for (LineFrame.Instance clause line) term.now) }
{
    let tuple = tuple_in(alloc, term)?;
    let finding = Finding::WrongInstance { clause, tuple };
    Ok(Some(Entry::Found { finding, line }))
}

/// The entry whose text has this term in it.
pub(crate) fn entry_for(
    alloc: Global,
    frame: LineFrame,
    term: Flat,
) -> Result<Option<Entry>, AllocError>
    ensures { IfOk result (λ e. e ≡ entry_for frame term) }
{
    match frame {
        LineFrame::Truth(place) => asked(alloc, place, Question::True(term)),
        LineFrame::Cover(place) => cover_entry(alloc, place, &term),
        LineFrame::Order(place) => order_entry(alloc, place, &term),
        LineFrame::Reply { left, by_reference } => reply_entry(alloc, left, by_reference, &term),
        LineFrame::Instance { clause, line } => instance_entry(alloc, clause, line, &term),
        LineFrame::Uncovered => Ok(Some(Entry::Found {
            finding: Finding::Uncovered { goal: term },
            line: 0,
        })),
    }
}

/// A call that isn't below its caller.
pub(crate) fn call_entry(calling: Calling, callee: u32, call: Flat, caller: Flat) -> Entry
    ensures { result ≡ call_entry calling callee call caller }
{
    Entry::Found {
        finding: Finding::Violation {
            clause: calling.clause,
            goal: calling.goal,
            caller: calling.caller,
            callee,
            caller_atom: caller,
            callee_atom: call,
        },
        line: calling.line,
    }
}
