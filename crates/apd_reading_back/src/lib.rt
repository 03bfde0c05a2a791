//! The laws of reading back: what `apd_write` writes of a term, of the goals of a query, and of clauses one after another, is
//! read by `apd_token` and `apd_read` as these terms.
//!
//! The laws are the contracts of [`reading_back`], [`items_and_queries_read_back`] and [`lines_read_back`]; no code here runs.
#![tactic(auto)]

ghost use Rattle.apd_term.specs.Term.{Term};
ghost use Rattle.apd_causes.specs.declared.faults.ReadFault.{ReadFault};
ghost use Rattle.apd_causes.specs.declared.reading.Read.{Read};
ghost use Rattle.apd_ops.specs.Table.{Table, IsTable};
ghost use Rattle.apd_ops.specs.declared.op.TheConstants.{ARGUMENT_PRIORITY, MOST_PRIORITY};
ghost use Rattle.apd_token.specs.declared.items.Token.{Token};
ghost use Rattle.apd_token.specs.Grammar.{HasTokens};
ghost use Rattle.apd_read.specs.Reader.{IsRead};
ghost use Rattle.apd_read.specs.declared.phrase.TheConstants.{TOO_MANY_LEVELS};
ghost use Rattle.std.specs.Prelude.{◌≡◌, ℕ, ◌+◌, ◌≤◌, ◌<◌, List, ◌++◌, codes, length, map, Result, Ok};
ghost use Rattle.apd_term.specs.declared.term.NameId.{NameId};
ghost use Rattle.apd_reading_back.specs.Law.{AreNames, IsReadable, IsWritable, item_text, clause_text, ReadsAs, ReadsBack, IsTermRead};
ghost use Rattle.apd_reading_back.specs.Levels.{levels};
ghost use Rattle.apd_reading_back.specs.Lines.{AreWritten, Line, ReadsInTurn, lines_text};
ghost use Rattle.apd_reading_back.specs.Queries.{AreReadable, IsAskable, call_term, call_text, conjoined, goals_text, query_term, query_text};

/// The law of reading back. The text of a term as a clause, by a table of operators, has tokens,
/// which read by the same table as the term, and as nothing else.
///
/// The term is canonical, its names are kept, its numbers are those of symbols, and its text has no
/// term at level 1,000. Names may come later.
pub fn reading_back()
    ensures reads { (ops : Table) (names : List (List ℕ)) (t : Term) →
        IsTable ops → AreNames names → IsReadable ops names t → ReadsBack ops names t }
    ensures only { (ops : Table) (names : List (List ℕ)) (t : Term) →
        IsTable ops → AreNames names → IsReadable ops names t →
        (later : List (List ℕ)) (tokens : List Token) (answer : Result Read ReadFault) →
        HasTokens (clause_text ops names t) tokens →
        IsRead ops (names ++ later) (clause_text ops names t) tokens 0 answer → IsTermRead t answer }
{}

/// A term written for a place of any priority reads back too, and so do the goals of a query as they are printed: each as an
/// argument is written, behind `?-`. What reads as a term reads as nothing else.
pub fn items_and_queries_read_back()
    ensures items { (ops : Table) (names : List (List ℕ)) (t : Term) (place : ℕ) →
        IsTable ops → AreNames names → IsWritable names t → place ≤ MOST_PRIORITY →
        levels ops t place < TOO_MANY_LEVELS →
        ReadsAs ops names (item_text ops names t place) t }
    ensures queries { (ops : Table) (names : List (List ℕ)) (goal : Term) (goals : List Term) →
        IsTable ops → AreNames names → IsAskable ops names goal goals →
        ReadsAs ops names (query_text ops names goal goals) (query_term goal goals) }
    ensures goals { (ops : Table) (names : List (List ℕ)) (goal : Term) (goals : List Term) →
        IsTable ops → AreNames names → AreReadable ops names goal goals →
        ReadsAs ops names (goals_text ops names goal goals ++ codes " .") (conjoined goal goals) }
    ensures calls { (ops : Table) (names : List (List ℕ)) (f : NameId) (t : Term) →
        IsTable ops → AreNames names → f.0 < length names → IsWritable names t →
        levels ops t ARGUMENT_PRIORITY + 1 < TOO_MANY_LEVELS →
        ReadsAs ops names (call_text ops names f t ++ codes " .") (call_term f t) }
    ensures only { (ops : Table) (names : List (List ℕ)) (text : List ℕ) (t : Term) →
        IsTable ops → (back : ReadsAs ops names text t) →
        (later : List (List ℕ)) (tokens : List Token) (answer : Result Read ReadFault) →
        HasTokens text tokens → IsRead ops (names ++ later) text tokens 0 answer →
        answer ≡ Ok back.read }
{}

/// Clauses that are written one after another, each in a line of its own, are read in turn as their terms, whatever names come
/// later.
pub fn lines_read_back()
    ensures { (ops : Table) (names : List (List ℕ)) (lines : List Line) →
        IsTable ops → AreNames names → AreWritten ops names lines →
        ReadsInTurn ops names (lines_text lines) (map (λ (l : Line). l.term) lines) }
{}
