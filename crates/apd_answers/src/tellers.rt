//! The pairs that may tell whether an atom is true, and the first of them that does.

ghost use Rattle.std.specs.Prelude.{◌≡◌, ◌<◌, ◌++◌, ℕ, List, All, IfOk, IsTrue, length};
ghost use Rattle.std.specs.List.Sorted.{IsNonDecreasing};
ghost use Rattle.apd_term.specs.Term.{Term};
ghost use Rattle.apd_answers.specs.declared.store.Pair.{Pair};
ghost use Rattle.apd_answers.specs.Tellers.{IsFirstTold, IsNarrow, leading, mark_of_atoms, reply_in, telling_mark};

use crate::question::{Question, Reply};
use crate::store::{Pair, told_of_truth};
use apd_cells::first::key_of;
use apd_marks::mixed;
use apd_term::{Flat, Pred, Sym};
use std::alloc::{AllocError, Global};

/// What the marks of atoms begin with.
const ATOMS: u64 = 4;

/// The mark of what may tell of any atom.
pub(crate) const ANY_ATOM: u64 = 5;

/// The mark of what tells of no atom.
const NO_ATOM: u64 = 6;

/// What a first argument begins with that is a variable.
pub(crate) const VARIABLE: Sym = Sym::Var(0);

/// What a pair tells of an atom, and the pair's place.
#[derive(Drop)]
pub(crate) struct Teller {
    pub place: usize,
    pub reply: Reply,
}

/// The symbol, or the one that stands for all variables.
fn leading(first: Sym) -> Sym
    ensures { result ≡ leading first }
{
    match first {
        Sym::Var(_) => VARIABLE,
        other => other,
    }
}

/// The mark of the predicate's atoms whose first arguments begin with a symbol.
pub(crate) fn mark_of_atoms(pred: Pred, key: Sym) -> u64
    ensures { result ≡ mark_of_atoms pred key }
{
    mixed(mixed(ATOMS, Sym::Fun(pred.name, pred.arity)), leading(key))
}

/// The mark of the atoms of which a reply to the question may tell whether they are true.
pub(crate) fn telling_mark(question: &Question) -> u64
    ensures { result ≡ telling_mark question.now }
{
    match question {
        Question::True(atom) => match atom.pred() {
            Some(pred) => mark_of_atoms(pred, key_of(atom)),
            None => ANY_ATOM,
        },
        Question::Covers(_) => ANY_ATOM,
        Question::Below(_, _) => NO_ATOM,
    }
}

/// Whether few pairs may tell of the predicate's atoms whose first arguments begin so.
pub(crate) fn is_narrow(pred: Pred, key: Sym) -> bool
    ensures { IsTrue result → IsNarrow pred key }
{
    match key {
        Sym::Var(_) => pred.arity == 0,
        _ => true,
    }
}

/// The first of the pairs at these places that tells whether the atom is true.
pub(crate) fn first_told(
    alloc: Global,
    pairs: &[Pair],
    places: &[usize],
    atom: &Flat,
) -> Result<Option<Teller>, AllocError>
    requires within { All (λ k. k < length pairs.now) places.now }
    requires rising { IsNonDecreasing places.now }
    ensures { IfOk result (IsFirstTold pairs.now atom.now places.now) }
{
    'places: for place in places {
        let pair = &pairs[*place];
        if let Some(reply) = told_of_truth(alloc, pair, atom)? {
            return Ok(Some(Teller {
                place: *place,
                reply,
            }));
        }
    }
    Ok(None)
}

/// The earlier of the two, where there are both.
pub(crate) fn earlier(one: Option<Teller>, other: Option<Teller>) -> Option<Teller>
    ensures { (ps : List Pair) (a : Term) (xs ys : List ℕ) →
        IsFirstTold ps a xs one → IsFirstTold ps a ys other → IsFirstTold ps a (xs ++ ys) result }
{
    match (one, other) {
        (Some(x), Some(y)) => { if y.place < x.place { Some(y) } else { Some(x) } }
        (None, y) => y,
        (x, None) => x,
    }
}

/// What is told.
pub(crate) fn reply_in(told: Option<Teller>) -> Option<Reply>
    ensures { result ≡ reply_in told }
{
    match told {
        Some(told) => Some(told.reply),
        None => None,
    }
}
