//! Laws of written texts, each the contract of a function without a body.

ghost use Rattle.std.specs.Prelude.{ℕ, ◌∷◌, [], List};
ghost use Rattle.apd_causes.specs.declared.run.Query.{Query};
ghost use Rattle.apd_claims.specs.Reading.{as_clause};
ghost use Rattle.apd_claims.specs.declared.claim.Claim.TheVariants.{Ends, Runs};
ghost use Rattle.apd_clauses.specs.declared.clause.Clause.{Clause};
ghost use Rattle.apd_ops.specs.Table.{IsTable, Table};
ghost use Rattle.apd_ports.specs.declared.filter.Filter.{Filter};
ghost use Rattle.apd_query.specs.Runs.{run_text};
ghost use Rattle.apd_read.specs.Reader.{Reader};
ghost use Rattle.apd_reading_back.specs.Law.{AreNames, ReadsAs};
ghost use Rattle.apd_reading_back.specs.Queries.{AreReadable};
ghost use Rattle.apd_talk.specs.Utterance.{Utterance, entries_of, texts_of};
ghost use Rattle.apd_term.specs.Term.{Term};
ghost use Rattle.apd_text.specs.Entries.{text_of};
ghost use Rattle.apd_text.specs.declared.entry.Entry.{Entry};
ghost use Rattle.apd_trace.specs.Run.{Run, ran_of};
ghost use Rattle.apd_write.specs.Writing.{written};
ghost use Rattle.apd_written.specs.Claims.{all_claims, claims_of, query_written};
ghost use Rattle.apd_written.specs.Says.{HasNoBreak, Says};
ghost use Rattle.apd_written.specs.Texts.{IsShort, IsTold, order_term, order_text};
ghost use Rattle.apd_written.specs.Uttered.{AllUttered, AllWritten, IsPlainEntry, IsWritten};

/// No newline stands in what is written of a term.
pub fn a_written_term_is_on_one_line()
    ensures { (ops : Table) (names : List (List ℕ)) (t : Term) (place : ℕ) →
        HasNoBreak (written ops names t place) }
{}

/// The atoms of two calls, as a question has them, read as the arguments of one term.
pub fn atoms_of_an_order_read_back()
    ensures { (ops : Table) (names : List (List ℕ)) (q p : Term) →
        IsTable ops → AreNames names → AreReadable ops names q (p ∷ []) →
        ReadsAs ops names (as_clause (order_text ops names q p)) (order_term q p) }
{}

/// The text of a run says its query and its end, and nothing else.
pub fn runs_say_their_query_and_end()
    ensures { (names : List (List ℕ)) (reader : Reader names) (ops : Table) (filter : Filter)
        (q : Query) (r : Run) →
        IsTable ops → AreNames names → IsTold ops names q r →
        IsShort (run_text ops names filter q r) →
        Says reader ops (run_text ops names filter q r)
        (Runs (query_written q) ∷ Ends (ran_of r) ∷ []) }
{}

/// The text of each other entry says what the entry claims, in canonical form, and nothing else.
pub fn entries_say_their_claims()
    ensures { (names : List (List ℕ)) (reader : Reader names) (ops : Table)
        (e : Entry) →
        IsTable ops → AreNames names → IsPlainEntry ops names e → IsWritten ops names e →
        IsShort (text_of ops names e) →
        Says reader ops (text_of ops names e) (claims_of e) }
{}

/// What is uttered says the claims of its entries, where their terms and the numbers that are read again can be written and read
/// back. The line of a call that isn't below its caller may say other things too.
pub fn what_is_uttered_says_its_claims()
    ensures { (names : List (List ℕ)) (reader : Reader names) (ops : Table) (program : List Clause)
        (us : List (Utterance Entry)) →
        IsTable ops → AreNames names → AllUttered ops names program us →
        AllWritten ops names (entries_of us) → IsShort (texts_of us) →
        Says reader ops (texts_of us) (all_claims (entries_of us)) }
{}
