//! Laws of checked logs, each the contract of a function without a body.

ghost use Rattle.std.specs.Prelude.{◌≡◌, ℕ, List};
ghost use Rattle.apd_ops.specs.Table.{Table};
ghost use Rattle.apd_read.specs.Reader.{Reader};
ghost use Rattle.apd_clauses.specs.declared.clause.Clause.{Clause};
ghost use Rattle.apd_clauses.specs.Clauses.{IsProgram};
ghost use Rattle.apd_answers.specs.Store.{Store};
ghost use Rattle.apd_check.specs.Checked.{IsCheckOf, after_all, first_state};
ghost use Rattle.apd_check.specs.Right.{AreRight, findings_in};
ghost use Rattle.apd_claims.specs.Saying.{said_in};
ghost use Rattle.apd_check.specs.declared.checked.Checked.TheVariants.{Holds};
ghost use Rattle.apd_check.specs.declared.checked.Checked as results;

use apd_answers::Intended;

/// Each finding of a log that holds follows from the replies before it. In every interpretation of which all replies of the log,
/// those that were known before and the trust are true, it is a bug, candidates of which one at least is a wrong instance, or a
/// chain of calls that all descend. They are counted.
pub fn what_holds_is_right<M: Intended>(_intended: &M)
    ensures right { (program : List Clause) → IsProgram program →
        (ops : Table) (names : List (List ℕ)) (reader : Reader names) (known : Store) (text : List ℕ) (total : ℕ) →
        IsCheckOf program ops reader known text (Holds total) →
        (let said = said_in reader ops text in
        AreRight program M.interpretation (after_all program (first_state known) said).known
        (first_state known) said) }
    ensures counted { (program : List Clause)
        (ops : Table) (names : List (List ℕ)) (reader : Reader names) (known : Store) (text : List ℕ) (total : ℕ) →
        IsCheckOf program ops reader known text (Holds total) →
        total ≡ findings_in (said_in reader ops text) }
{}

/// A log has one result: what is said is good, or it isn't, and then for one reason.
pub fn one_result()
    ensures { (program : List Clause)
        (ops : Table) (names : List (List ℕ)) (reader : Reader names) (known : Store) (text : List ℕ) (a b : results.Checked) →
        IsCheckOf program ops reader known text a →
        IsCheckOf program ops reader known text b → a ≡ b }
{}
