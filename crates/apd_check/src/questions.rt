//! Whether a question may be asked.

ghost use Rattle.std.specs.Prelude.{◌↔◌, IsTrue, All};
ghost use Rattle.apd_clauses.specs.Kinds.{IsPureGoal, IsUserAtom};
ghost use Rattle.apd_known.specs.Pairs.{MayAsk, MayCover};
ghost use Rattle.apd_check.specs.Checked.{Decided};
ghost use Rattle.apd_text.specs.declared.check.Why.TheVariants as why;

use crate::checked::Why;
use apd_answers::Question;
use apd_base::MOST_GOALS;
use apd_clauses::{Kind, kind_of};
use apd_term::{Flat, Tuple};

/// Whether the term is an atom of a program's own predicate.
fn is_user_atom(term: &Flat) -> bool
    ensures { IsTrue result ↔ IsUserAtom term.now }
{
    match term.pred() {
        Some(pred) => kind_of(pred) == Kind::User,
        None => false,
    }
}

/// Whether the term is such an atom, or a built-in goal.
fn is_pure_goal(term: &Flat) -> bool
    ensures { IsTrue result ↔ IsPureGoal term.now }
{
    match term.pred() {
        Some(pred) => kind_of(pred).is_pure(),
        None => false,
    }
}

/// Whether each of the terms is one.
fn are_pure_goals(terms: &[Flat]) -> bool
    ensures { IsTrue result ↔ All IsPureGoal terms.now }
{
    'terms: for term in terms {
        if !is_pure_goal(term) {
            return false;
        }
    }
    true
}

/// Whether the clause's head is a ground atom of a program's own predicate, and its body has 1 to 64 goals.
fn may_cover(tuple: &Tuple) -> bool
    ensures { IsTrue result ↔ MayCover tuple.now }
{
    let goals = tuple.body.len();
    if !is_user_atom(&tuple.head) || !tuple.head.is_ground() {
        return false;
    }
    if goals == 0 || MOST_GOALS < goals {
        return false;
    }
    are_pure_goals(tuple.body.as_slice())
}

/// Whether a question may be asked: its atoms are a program's own.
fn may_ask(question: &Question) -> bool
    ensures { IsTrue result ↔ MayAsk question.now }
{
    match question {
        Question::True(atom) => is_user_atom(atom),
        Question::Covers(tuple) => may_cover(tuple),
        Question::Below(callee, caller) => is_user_atom(callee) && is_user_atom(caller),
    }
}

/// Whether a question that is asked may be.
pub(crate) fn judge_question(question: &Question) -> Option<Why>
    ensures { Decided (MayAsk question.now) why.Text result }
{
    if may_ask(question) {
        return None;
    }
    Some(Why::Text)
}
