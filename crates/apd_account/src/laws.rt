//! Laws of right entries, each the contract of a function without a body.

ghost use Rattle.std.specs.Prelude.{◌≡◌, ℕ, Bool, List, Option, ◌++◌};
ghost use Rattle.apd_answers.specs.declared.finding.Finding.{Finding};
ghost use Rattle.apd_answers.specs.declared.question.Asked.{Asked};
ghost use Rattle.apd_answers.specs.declared.question.Reply.{Reply};
ghost use Rattle.apd_clauses.specs.declared.clause.Clause.{Clause};
ghost use Rattle.apd_divide.specs.declared.node.Strategy.{Strategy};
ghost use Rattle.apd_text.specs.declared.entry.Entry.{Entry};
ghost use Rattle.apd_account.specs.Account.{Account, after_entries, after_telling};
ghost use Rattle.apd_account.specs.Right.{AreRight, IsRightTelling};
ghost use Rattle.apd_account.specs.Telling.{Asks, Finds, Replies};

use apd_answers::Intended;

/// Entries are right where those in front are, and the others after what those tell.
pub fn right_entries_have_right_parts<M: Intended>(_intended: &M)
    ensures front { (program : List Clause) (strategy : Strategy) (a : Account)
        (xs ys : List Entry) →
        AreRight M.interpretation program strategy a (xs ++ ys) →
        AreRight M.interpretation program strategy a xs }
    ensures both { (program : List Clause) (strategy : Strategy) (a : Account)
        (xs ys : List Entry) →
        AreRight M.interpretation program strategy a xs →
        AreRight M.interpretation program strategy (after_entries program strategy a xs) ys →
        AreRight M.interpretation program strategy a (xs ++ ys) }
{}

/// After the same entries one question is right, or one finding, and never both; and a reply that is told again isn't right.
pub fn right_entries_are_determined<M: Intended>(_intended: &M)
    ensures question { (program : List Clause) (strategy : Strategy) (a : Account) (x y : Asked) →
        IsRightTelling M.interpretation program strategy a (Asks x) →
        IsRightTelling M.interpretation program strategy a (Asks y) → x ≡ y }
    ensures finding { (program : List Clause) (strategy : Strategy) (a : Account) (f g : Finding) →
        IsRightTelling M.interpretation program strategy a (Finds f) →
        IsRightTelling M.interpretation program strategy a (Finds g) → f ≡ g }
    ensures apart { (program : List Clause) (strategy : Strategy) (a : Account)
        (x : Asked) (f : Finding) →
        IsRightTelling M.interpretation program strategy a (Asks x) →
        ¬ IsRightTelling M.interpretation program strategy a (Finds f) }
    ensures once { (program : List Clause) (strategy : Strategy) (a : Account)
        (r s : Reply) (l k : Option ℕ) (b c : Bool) →
        IsRightTelling M.interpretation program strategy a (Replies r l b) →
        ¬ IsRightTelling M.interpretation program strategy
        (after_telling program strategy a (Replies r l b)) (Replies s k c) }
{}
