//! Laws of a reference program's replies.

ghost use Rattle.std.specs.Prelude.{◌≡◌, ◌≢◌, ◌↔◌, ◌<◌, ℕ, List, Option, Some, All, IsTrue, length};
ghost use Rattle.apd_term.specs.Named.{AllNamed, AllTuplesNamed};
ghost use Rattle.apd_term.specs.Term.{Term};
ghost use Rattle.apd_term.specs.Canonical.{canonical};
ghost use Rattle.apd_term.specs.declared.tuple.Tuple.{Tuple};
ghost use Rattle.apd_clauses.specs.Clauses.{IsClause};
ghost use Rattle.apd_answers.specs.declared.question.Question.{Question};
ghost use Rattle.apd_answers.specs.declared.question.Question.TheVariants.{Covers};
ghost use Rattle.apd_answers.specs.declared.question.Reply.{Reply};
ghost use Rattle.apd_answers.specs.declared.question.Reply.TheVariants.{Unknown, Values};
ghost use Rattle.apd_answers.specs.Questions.{Fits, IsTrueReply};
ghost use Rattle.apd_reference.specs.LeastModel.{HoldsLeastModel};
ghost use Rattle.apd_reference.specs.Asking.{variables_of};
ghost use Rattle.apd_reference.specs.Distinct.{IsListOfDistinct};
ghost use Rattle.apd_reference.specs.Replying.{is_general, reference_reply};

use apd_answers::Intended;

/// What a program replies, within whatever budget, fits the question, isn't that it isn't known, and is true of every interpretation whose ground atoms
/// that hold are those of the program's least model.
pub fn replies_are_true<M: Intended>(_intended: &M)
    ensures truth { (P : List Tuple) → All IsClause P → (budget : ℕ) → 0 < budget →
        HoldsLeastModel P M.interpretation → (q : Question) (r : Reply) →
        reference_reply P budget q ≡ Some r → IsTrueReply M.interpretation q r }
    ensures fits { (P : List Tuple) → All IsClause P → (budget : ℕ) → 0 < budget →
        (q : Question) (r : Reply) → reference_reply P budget q ≡ Some r →
        Fits q r × (r ≢ Unknown) }
{}

/// An answer, which is canonical, is general exactly where it is a list of as many distinct variables as the goals have.
pub fn general_answers_are_lists_of_distinct_variables()
    ensures { (goals : List Term) (t : Term) → canonical t ≡ t →
        IsTrue (is_general goals t) ↔ IsListOfDistinct (length (variables_of goals)) t }
{}

/// The values that a program replies have no names but its own, the standard ones of lists, and those of the body.
pub fn replies_are_named()
    ensures { (n : ℕ) (P : List Tuple) (budget : ℕ) (t : Tuple) (values : List Term) → 1 < n →
        All IsClause P → AllTuplesNamed n P → AllNamed n t.body →
        reference_reply P budget (Covers t) ≡ Some (Values values) → AllNamed n values }
{}
