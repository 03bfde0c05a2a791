//! Laws of written logs, each the contract of a function without a body.

ghost use Rattle.std.specs.Prelude.{ℕ, ◌+◌, Bool, List};
ghost use Rattle.apd_account.specs.Account.{Account};
ghost use Rattle.apd_account.specs.Right.{AreRight};
ghost use Rattle.apd_again.specs.Bare.{bare_record};
ghost use Rattle.apd_answers.specs.Findings.{IsByReplies};
ghost use Rattle.apd_answers.specs.Store.{Store};
ghost use Rattle.apd_answers.specs.declared.finding.Finding.{Finding};
ghost use Rattle.apd_check.specs.Checked.{IsChecked};
ghost use Rattle.apd_check.specs.declared.checked.Checked.TheVariants.{Holds};
ghost use Rattle.apd_check.specs.declared.state.LogState.{LogState};
ghost use Rattle.apd_claims.specs.Saying.{said_from};
ghost use Rattle.apd_claims.specs.declared.claim.Claim.{Claim};
ghost use Rattle.apd_clauses.specs.declared.clause.Clause.{Clause};
ghost use Rattle.apd_console.specs.Lines.{lines_of};
ghost use Rattle.apd_divide.specs.declared.node.Strategy.{Strategy};
ghost use Rattle.apd_ops.specs.Table.{Table};
ghost use Rattle.apd_read.specs.Reader.{Reader};
ghost use Rattle.apd_record.specs.Recorded.{Recorded};
ghost use Rattle.apd_term.specs.declared.tuple.Tuple.{Tuple};
ghost use Rattle.apd_text.specs.declared.entry.Entry.{Entry};
ghost use Rattle.apd_upheld.specs.Alike.{AreAlike};
ghost use Rattle.apd_upheld.specs.Fair.{AllFair, AreInTurn};
ghost use Rattle.apd_upheld.specs.Good.{AreGood, Stands, count_found};
ghost use Rattle.apd_written.specs.Claims.{all_claims, canonical_finding};
ghost use Rattle.apd_written.specs.Says.{Says};

use apd_answers::Intended;

/// What right and fair entries say is good for the check of their log, claim by claim.
pub fn what_right_entries_say_is_good<M: Intended>(_intended: &M)
    ensures { (program : List Clause) (strategy : Strategy) (a : Account) (s : LogState)
        (es : List Entry) →
        Stands a s → AreRight M.interpretation program strategy a es → AllFair program es →
        AreInTurn program strategy a es →
        AreGood program s (all_claims es) }
{}

/// A finding by replies is one by replies that are the same in canonical form, and for the record of the run that is made again;
/// and so is what is read of its text.
pub fn findings_stay_by_replies()
    ensures { (P : List Tuple) (R : Recorded) (a b : Store) (f : Finding) →
        AreAlike a b → IsByReplies P R a f →
        IsByReplies P (bare_record R) b (canonical_finding f) }
{}

/// A text whose lines say what is good holds, with as many findings as they say.
pub fn what_is_said_is_checked()
    ensures { (names : List (List ℕ)) (reader : Reader names) (ops : Table)
        (program : List Clause) (s : LogState) (found n : ℕ) (in_group : Bool) (text : List ℕ)
        (cs : List Claim) →
        Says reader ops text cs → AreGood program s cs →
        IsChecked program s found (said_from reader ops in_group n (lines_of text))
        (Holds (found + count_found cs)) }
{}
