//! Laws of names by another numbering, each the contract of a function without a body.

ghost use Rattle.std.specs.Prelude.{◌≡◌, ◌↔◌, ℕ, List, length};
ghost use Rattle.apd_term.specs.Named.{AllTuplesNamed};
ghost use Rattle.apd_term.specs.declared.tuple.Tuple.{Tuple};
ghost use Rattle.apd_ops.specs.Table.{IsTable, Table};
ghost use Rattle.apd_read.specs.Reader.{Reader};
ghost use Rattle.apd_reading_back.specs.Law.{AreNames};
ghost use Rattle.apd_clauses.specs.Clauses.{tuples_of};
ghost use Rattle.apd_clauses.specs.declared.clause.Clause.{Clause};
ghost use Rattle.apd_record.specs.Recorded.{Recorded};
ghost use Rattle.apd_trace.specs.Run.{query_run};
ghost use Rattle.apd_trace.specs.declared.item.Item.{Item};
ghost use Rattle.apd_recorded.specs.Told.{record_of};
ghost use Rattle.apd_answers.specs.Findings.{IsByReplies};
ghost use Rattle.apd_answers.specs.Store.{Store};
ghost use Rattle.apd_answers.specs.declared.finding.Finding.{Finding};
ghost use Rattle.apd_text.specs.declared.entry.Entry.{Entry};
ghost use Rattle.apd_talk.specs.Speech.{Lasting};
ghost use Rattle.apd_talk.specs.Utterance.{Utterance, entries_of, texts_of};
ghost use Rattle.apd_claims.specs.Saying.{Said, said_in};
ghost use Rattle.apd_check.specs.Checked.{IsCheckOf, IsChecked};
ghost use Rattle.apd_check.specs.declared.checked.Checked.TheVariants.{Holds};
ghost use Rattle.apd_check.specs.declared.checked.Checked.{Checked};
ghost use Rattle.apd_check.specs.declared.state.LogState.{LogState};
ghost use Rattle.apd_written.specs.Texts.{IsShort};
ghost use Rattle.apd_written.specs.Uttered.{AllUttered, AllWritten};
ghost use Rattle.apd_numbering.specs.Claims.{AreSaidAs, renumbered_state};
ghost use Rattle.apd_numbering.specs.Given.{IsGivenOf};
ghost use Rattle.apd_numbering.specs.Kept.{LogIsKept};
ghost use Rattle.apd_numbering.specs.Lists.{BeginAlike, HasAll};
ghost use Rattle.apd_numbering.specs.Renumbering.{Renumbering, renumbered_tuple, renumbered_tuples};
ghost use Rattle.apd_numbering.specs.Replies.{renumbered_finding, renumbered_store};
ghost use Rattle.apd_numbering.specs.Runs.{renumbered_items, renumbered_record, renumbered_run};
ghost use Rattle.apd_numbering.specs.Said.{AllSaidNamed};

/// A query whose names are renumbered runs alike, by clauses whose names are, and so is its record.
pub fn runs_are_renumbered()
    ensures runs { (n : ℕ) (x : Renumbering n) (P : List Tuple) (query : Tuple)
        (budget answers : ℕ) →
        query_run (renumbered_tuples x.to P) (renumbered_tuple x.to query) budget answers
        ≡ renumbered_run x.to (query_run P query budget answers) }
    ensures records { (n : ℕ) (x : Renumbering n) (items : List Item) →
        record_of (renumbered_items x.to items) ≡ renumbered_record x.to (record_of items) }
{}

/// A finding whose names are renumbered follows from replies whose names are.
pub fn findings_are_renumbered()
    ensures { (n : ℕ) (x : Renumbering n) (P : List Tuple) (R : Recorded) (store : Store)
        (f : Finding) → IsByReplies P R store f →
        IsByReplies (renumbered_tuples x.to P) (renumbered_record x.to R)
        (renumbered_store x.to store) (renumbered_finding x.to f) }
{}

/// Lines that say the same by another numbering are checked alike.
pub fn checks_are_renumbered()
    ensures { (n : ℕ) (program : List Clause) → AllTuplesNamed n (tuples_of program) →
        (x : Renumbering n) (s : LogState) (found : ℕ) (xs ys : List Said) (result : Checked) →
        AreSaidAs x.to xs ys → IsChecked program s found xs result →
        IsChecked program (renumbered_state x.to s) found ys result }
{}

/// The numbering of names doesn't matter to the check of a log: under two lists of names that begin with those of the program, its
/// operators and the known replies, and that both keep the names of the log, it has the same results. So what a check finds under names
/// of its own, whatever names come later, it finds under all that keep the names of the log.
pub fn any_numbering_will_do()
    ensures alike { (n : ℕ) (program : List Clause) (ops : Table) (known : Store)
        (names others : List (List ℕ)) (reader : Reader names) (other : Reader others)
        (text : List ℕ) (result : Checked) →
        IsGivenOf n program ops known → BeginAlike n names others →
        LogIsKept reader ops text → LogIsKept other ops text →
        (IsCheckOf program ops reader known text result
        ↔ IsCheckOf program ops other known text result) }
    ensures lasting { (n : ℕ) (program : List Clause) (ops : Table) (known : Store)
        (names others : List (List ℕ)) (reader : Reader names) (text : List ℕ)
        (result : Checked) →
        IsGivenOf n program ops known → BeginAlike n names others → LogIsKept reader ops text →
        Lasting others (λ later. (other : Reader later) →
        IsCheckOf program ops other known text result) →
        IsCheckOf program ops reader known text result }
{}

/// A log that holds, and says what has names that are kept, holds under any list of names that has these; so that is what its check
/// finds under names of its own, whatever names come later.
pub fn what_holds_holds_elsewhere()
    ensures holds { (n : ℕ) (program : List Clause) (ops : Table) (known : Store)
        (names others : List (List ℕ)) (reader : Reader names) (other : Reader others)
        (text : List ℕ) (count : ℕ) →
        IsGivenOf n program ops known → BeginAlike n names others → HasAll names others →
        AllSaidNamed (length names) (said_in reader ops text) →
        IsCheckOf program ops reader known text (Holds count) →
        IsCheckOf program ops other known text (Holds count) }
    ensures found { (n : ℕ) (program : List Clause) (ops : Table) (known : Store)
        (names others : List (List ℕ)) (reader : Reader names) (text : List ℕ) (count : ℕ)
        (result : Checked) →
        IsGivenOf n program ops known → BeginAlike n names others →
        AllSaidNamed (length names) (said_in reader ops text) →
        IsCheckOf program ops reader known text (Holds count) →
        Lasting others (λ later. (other : Reader later) →
        IsCheckOf program ops other known text result) →
        result ≡ Holds count }
{}

/// What a session wrote, where it can be read back, says what has names that are kept.
pub fn what_is_written_says_kept_names()
    ensures { (names : List (List ℕ)) (reader : Reader names) (ops : Table)
        (program : List Clause) (us : List (Utterance Entry)) →
        IsTable ops → AreNames names → AllUttered ops names program us →
        AllWritten ops names (entries_of us) → IsShort (texts_of us) →
        AllSaidNamed (length names) (said_in reader ops (texts_of us)) }
{}
